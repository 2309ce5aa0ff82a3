//! A kernel in memory. It tells its record. A call fails only if there is no memory for it, or if the name of a new
//! file isn't free.
ghost use Rattle.std.specs.Prelude.{◌≡◌, ◌+◌, ◌-◌, ◌++◌, ◌∷◌, [], length, min, take, slice_range, OnOk, OnErr, IfOk, IfErr};
ghost use Rattle.std.specs.IoError.{error_kind};
ghost use Rattle.crash_site.specs.Files.{written};
ghost use Rattle.kernel_files.specs.Volume.{Volume, folder_of, after_done};
ghost use Rattle.kernel_files.specs.Answers.{volume, bytes_at};
ghost use Rattle.kernel_files.specs.Log.{makes, creates, call_at, told_of};

use crate::kernel::Kernel;
use crate::standing::{Access, Standing};
use file_identity::identity::Identity;
use std::alloc::{AllocError, Global};
use std::io::{self, ErrorKind};

/// A call that was made.
#[derive(Drop)]
pub enum Act {
    Create(Vec<u8>),
    Write(usize, u64, Vec<u8>),
    Append(usize, Vec<u8>),
    SyncFile(usize),
    Rename(Vec<u8>, Vec<u8>),
    Unlink(Vec<u8>),
    /// Of the folder of this name.
    SyncFolder(Vec<u8>),
}

/// An open file.
#[derive(Drop)]
pub struct OpenNode {
    number: usize,
}

/// The folder of a name.
#[derive(Drop)]
pub struct OpenFolder {
    name: Vec<u8>,
}

/// The record of calls, where no file was at first.
#[derive(Drop)]
pub struct MemoryKernel {
    alloc: Global,
    log: Vec<Act>,
    made: usize,
    ghost counts: { made ≡ creates log.items },
}

impl MemoryKernel {
    /// No call was made.
    pub fn new(alloc: Global) -> MemoryKernel
        ensures { result.log.items ≡ [] }
    {
        MemoryKernel {
            alloc,
            log: Vec::new(alloc),
            made: 0,
        }
    }
}

/// How many files a call makes.
fn makes(act: &Act) -> usize
    ensures { result ≡ makes act.now }
{
    match act {
        Act::Create(_) => 1,
        _ => 0,
    }
}

/// What a name leads to after a call: this file or none, or what another name led to before it.
fn look<'a>(act: &'a Act, number: usize, name: &'a [u8]) -> Result<&'a [u8], Option<usize>>
    ensures on { IfOk result (λ other. (v : Volume) → (after_done (call_at number act.now) v).names name.now
        ≡ v.names other.now) }
    ensures here { IfErr result (λ found. (v : Volume) → (after_done (call_at number act.now) v).names name.now
        ≡ found) }
{
    match act {
        Act::Create(own) => {
            if own.as_slice() == name {
                Err(Some(number))
            } else {
                Ok(name)
            }
        }
        Act::Unlink(own) => {
            if own.as_slice() == name {
                Err(None)
            } else {
                Ok(name)
            }
        }
        Act::Rename(from, to) => {
            if to.as_slice() == name {
                Ok(from.as_slice())
            } else if from.as_slice() == name {
                Err(None)
            } else {
                Ok(name)
            }
        }
        _ => Ok(name),
    }
}

/// The file to which a name leads.
fn find(log: &[Act], made: usize, name: &[u8]) -> Option<usize>
    requires { made ≡ creates log.now }
    ensures { result ≡ (volume (told_of log.now)).names name.now }
{
    let mut end = log.len();
    let mut number = made;
    let mut wanted = name;
    while end > 0 {
        end -= 1;
        number -= makes(&log[end]);
        match look(&log[end], number, wanted) {
            Ok(other) => wanted = other,
            Err(found) => return found,
        }
    }
    None
}

/// Bytes after a write at a place. A gap before it is filled with zeros.
fn write_over(alloc: Global, old: &[u8], pos: usize, piece: &[u8]) -> Result<Vec<u8>, AllocError>
    ensures { IfOk result (λ bytes. bytes.items ≡ written old.now pos piece.now) }
{
    let kept = pos.min(old.len());
    let mut bytes = Vec::from_slice(alloc, &old[..kept])?;
    bytes.resize(pos, 0)?;
    bytes.extend_from_slice(piece)?;
    if old.len() - kept > piece.len() {
        bytes.extend_from_slice(&old[pos + piece.len()..])?;
    }
    Ok(bytes)
}

/// The bytes of a file after a call, if this many files were made before it.
fn play(
    alloc: Global,
    bytes: Vec<u8>,
    act: &Act,
    made: usize,
    number: usize,
) -> Result<Vec<u8>, AllocError>
    ensures { IfOk result (λ after. (v : Volume) → (v.nodes number).bytes ≡ bytes.items
        → ((after_done (call_at made act.now) v).nodes number).bytes ≡ after.items) }
{
    match act {
        Act::Create(_) => {
            if made == number {
                return Ok(Vec::new(alloc));
            }
        }
        Act::Write(own, pos, piece) => {
            if *own == number && !piece.is_empty() {
                return write_over(alloc, bytes.as_slice(), *pos as usize, piece.as_slice());
            }
        }
        Act::Append(own, piece) => {
            if *own == number {
                let mut bytes = bytes;
                bytes.extend_from_slice(piece.as_slice())?;
                return Ok(bytes);
            }
        }
        _ => {}
    }
    Ok(bytes)
}

/// The bytes of a file.
fn replay(alloc: Global, log: &[Act], number: usize) -> Result<Vec<u8>, AllocError>
    ensures { IfOk result (λ bytes. bytes.items ≡ bytes_at (told_of log.now) number) }
{
    let mut bytes = Vec::new(alloc);
    let mut made = 0;
    for act in log {
        bytes = play(alloc, bytes, act, made, number)?;
        made += makes(act);
    }
    Ok(bytes)
}

/// Copies the bytes from a place on, as many as there are and as the buffer takes.
fn copy_part(bytes: &[u8], pos: u64, buf: &mut [u8]) -> usize
    ensures count { result ≡ min (length buf.old) (length bytes.now - pos) }
    ensures part { take result buf.new ≡ slice_range bytes.now pos (pos + result) }
{
    let at = pos as usize;
    if at >= bytes.len() {
        return 0;
    }
    let n = buf.len().min(bytes.len() - at);
    buf[..n].copy_from_slice(&bytes[at..at + n]);
    n
}

/// Lists a call, if there is memory for it.
fn list(log: &mut Vec<Act>, act: Act) -> io::Result<()>
    ensures ok { OnOk result (log.new.items ≡ log.old.items ++ act ∷ []) }
    ensures err { OnErr result (log.new.items ≡ log.old.items) }
    ensures memory { IfErr result (λ e. error_kind e ≡ ErrorKind.OutOfMemory) }
{
    Ok(log.push(act)?)
}

impl Kernel for MemoryKernel {
    type Open = OpenNode;

    type Folder = OpenFolder;

    ghost told = { λ k. told_of k.log.items };

    ghost number = { λ file. file.number };

    ghost text = { λ folder. folder_of folder.name.items };

    fn made(&self) -> usize {
        self.log.len()
    }

    fn found(&self, name: &str) -> io::Result<Standing> {
        match find(self.log.as_slice(), self.made, name.as_bytes()) {
            Some(number) => Ok(Standing::of_number(number as u64)),
            None => Err(ErrorKind::NotFound.into()),
        }
    }

    fn reached(&self, name: &str) -> io::Result<Standing> {
        self.found(name)
    }

    fn met(&self, file: &OpenNode) -> io::Result<Standing> {
        Ok(Standing::of_number(file.number as u64))
    }

    fn beneath(&self, _file: &OpenNode) -> io::Result<Vec<Identity>> {
        Ok(Vec::new(self.alloc))
    }

    fn beneath_folder(&self, _folder: &OpenFolder) -> io::Result<Vec<Identity>> {
        Ok(Vec::new(self.alloc))
    }

    fn open(&self, name: &str, _access: Access) -> io::Result<OpenNode> {
        match find(self.log.as_slice(), self.made, name.as_bytes()) {
            Some(number) => Ok(OpenNode { number }),
            None => Err(ErrorKind::NotFound.into()),
        }
    }

    fn open_folder(&self, name: &str) -> io::Result<OpenFolder> {
        match Vec::from_slice(self.alloc, name.as_bytes()) {
            Ok(name) => Ok(OpenFolder { name }),
            Err(_) => Err(ErrorKind::OutOfMemory.into()),
        }
    }

    fn open_target_folder(&self, name: &str) -> io::Result<OpenFolder> {
        self.open_folder(name)
    }

    fn open_or_make(&mut self, name: &str) -> io::Result<OpenNode> {
        match find(self.log.as_slice(), self.made, name.as_bytes()) {
            Some(number) => Ok(OpenNode { number }),
            None => self.create_new(name),
        }
    }

    fn create_new(&mut self, name: &str) -> io::Result<OpenNode> {
        match find(self.log.as_slice(), self.made, name.as_bytes()) {
            Some(_) => return Err(ErrorKind::AlreadyExists.into()),
            None => {}
        }
        let Ok(copied) = Vec::from_slice(self.alloc, name.as_bytes()) else {
            return Err(ErrorKind::OutOfMemory.into());
        };
        if self.made == usize::MAX {
            return Err(ErrorKind::OutOfMemory.into());
        }
        list(&mut self.log, Act::Create(copied))?;
        let number = self.made;
        self.made += 1;
        Ok(OpenNode { number })
    }

    fn read_at(&self, file: &OpenNode, pos: u64, buf: &mut [u8]) -> io::Result<usize> {
        let Ok(bytes) = replay(self.alloc, self.log.as_slice(), file.number) else {
            return Err(ErrorKind::OutOfMemory.into());
        };
        Ok(copy_part(bytes.as_slice(), pos, buf))
    }

    fn write_at(&mut self, file: &OpenNode, pos: u64, piece: &[u8]) -> io::Result<usize> {
        let Ok(copied) = Vec::from_slice(self.alloc, piece) else {
            return Err(ErrorKind::OutOfMemory.into());
        };
        list(&mut self.log, Act::Write(file.number, pos, copied))?;
        Ok(piece.len())
    }

    fn append(&mut self, file: &OpenNode, piece: &[u8]) -> io::Result<usize> {
        let Ok(copied) = Vec::from_slice(self.alloc, piece) else {
            return Err(ErrorKind::OutOfMemory.into());
        };
        list(&mut self.log, Act::Append(file.number, copied))?;
        Ok(piece.len())
    }

    fn length(&self, file: &OpenNode) -> io::Result<u64> {
        match replay(self.alloc, self.log.as_slice(), file.number) {
            Ok(bytes) => Ok(bytes.len() as u64),
            Err(_) => Err(ErrorKind::OutOfMemory.into()),
        }
    }

    fn set_length(&self, _file: &OpenNode, _len: u64) -> io::Result<()> {
        Ok(())
    }

    fn sync_file(&mut self, file: &OpenNode) -> io::Result<()> {
        list(&mut self.log, Act::SyncFile(file.number))
    }

    fn sync_folder(&mut self, folder: &OpenFolder) -> io::Result<()> {
        let Ok(copied) = Vec::from_slice(self.alloc, folder.name.as_slice()) else {
            return Err(ErrorKind::OutOfMemory.into());
        };
        list(&mut self.log, Act::SyncFolder(copied))
    }

    fn rename(&mut self, from: &str, to: &str) -> io::Result<()> {
        let Ok(first) = Vec::from_slice(self.alloc, from.as_bytes()) else {
            return Err(ErrorKind::OutOfMemory.into());
        };
        let Ok(second) = Vec::from_slice(self.alloc, to.as_bytes()) else {
            return Err(ErrorKind::OutOfMemory.into());
        };
        list(&mut self.log, Act::Rename(first, second))
    }

    fn unlink(&mut self, name: &str) -> io::Result<()> {
        let Ok(copied) = Vec::from_slice(self.alloc, name.as_bytes()) else {
            return Err(ErrorKind::OutOfMemory.into());
        };
        list(&mut self.log, Act::Unlink(copied))
    }

    fn remove_folder(&self, _name: &str) -> io::Result<()> {
        Err(ErrorKind::NotADirectory.into())
    }

    fn lock(&self, _file: &OpenNode) -> io::Result<()> {
        Ok(())
    }

    fn give(&self, _file: &OpenNode, _owner: Option<u32>, _group: u32) -> io::Result<()> {
        Ok(())
    }

    fn set_mode(&self, _file: &OpenNode, _mode: u32) -> io::Result<()> {
        Ok(())
    }
}
