//! The files in memory, as they read.
#![tactic(auto, using(crate::proofs::FolderLemmas::folder_lemmas))]

ghost use Rattle.std.specs.Prelude.{◌≡◌, ℕ, ◌+◌, ◌++◌, ◌-◌, min, ◌<◌, ◌≤◌, ◌^◌, true, false, IsTrue, List, length, take, slice_range, Some, None, IsSome, is_some, IfOk, OnOk, OnErr, MatchOption, if◌then◌else◌};
ghost use Rattle.crash_site.specs.Files.{File, empty_file, draft_of, file_named, put, written_file};
ghost use Rattle.crash_site.specs.FileAnswers.{kind_of, is_absent, IsRead, IsWithin, IsImageRead};
ghost use Rattle.crash_site.specs.Calls.{image_open, image_write, draft_begin, draft_append, draft_publish, map_settle, map_remove};
ghost use Rattle.crash_site.specs.Folder.{Folder, after_done, if_any, after_failed};
ghost use Rattle.memory_site.specs.CallLog.{call_of};
ghost use Rattle.memory_site.specs.Places.{file_of, files_of};
ghost use Rattle.crash_site.specs.Full.{IsFull};
ghost use Rattle.memory_site.specs.MemoryFolder.{name_of, folder_of};

use crate::memory::call_log::Act;
use crate::memory::places::{MemoryFile, NamedFile, copy_places, file_at, place_of, take_file};
use crash_site::site::{ImageKind, MapRead};
use std::alloc::{AllocError, Global};

/// Files in memory as they read, and the names of the open image and of the begun draft.
#[derive(Drop)]
pub(crate) struct MemoryFolder {
    alloc: Global,
    pub(crate) places: Vec<NamedFile>,
    pub(crate) image: Option<Vec<u8>>,
    pub(crate) draft: Option<Vec<u8>>,
}

/// Copies the bytes from a place on, as many as there are and as the buffer takes.
fn copy_part(bytes: &[u8], pos: u64, buf: &mut [u8]) -> usize
    ensures count { result ≡ min (length buf.old) (length bytes.now - pos) }
    ensures part { take result buf.new ≡ slice_range bytes.now pos (pos + result) }
    ensures end { 0 < length buf.old → result ≡ 0 → length bytes.now ≤ pos }
{
    let at = pos as usize;
    if at >= bytes.len() {
        return 0;
    }
    let n = buf.len().min(bytes.len() - at);
    buf[..n].copy_from_slice(&bytes[at..at + n]);
    n
}

fn copy_name(alloc: Global, name: &Option<Vec<u8>>) -> Result<Option<Vec<u8>>, AllocError>
    ensures { IfOk result (λ copied. name_of copied ≡ name_of name.now) }
{
    match name {
        None => Ok(None),
        Some(name) => Ok(Some(Vec::from_slice(alloc, name.as_slice())?)),
    }
}

/// The name of the open image after an open of this one.
fn opened_name(kind: ImageKind, name: Vec<u8>) -> Option<Vec<u8>>
    ensures { name_of result ≡ (if is_absent kind then None else Some name.items) }
{
    match kind {
        ImageKind::Absent => None,
        ImageKind::Regular | ImageKind::Other => Some(name),
    }
}

/// The name of a mapfile's draft.
pub(crate) fn draft_name(alloc: Global, name: &[u8]) -> Result<Vec<u8>, AllocError>
    ensures { IfOk result (λ draft. draft.items ≡ draft_of name.now) }
{
    let mut draft = Vec::from_slice(alloc, name)?;
    draft.extend_from_slice(".tmp".as_bytes())?;
    Ok(draft)
}

/// The bytes of a piece that are taken in this many steps.
fn taken(piece: &[u8], steps: u64) -> &[u8]
    ensures { result.now ≡ take steps piece.now }
{
    let count = piece.len().min(steps as usize);
    &piece[..count]
}

/// Whether a range ends where a file in memory may.
pub(crate) fn fits(pos: usize, len: usize) -> bool
    ensures { IsTrue result → pos + len < 2 ^ 63 }
{
    match pos.checked_add(len) {
        None => false,
        Some(end) => end < 1 << 63,
    }
}

impl MemoryFolder {
    /// A folder without files, with no image open and no draft begun.
    pub(crate) fn new(alloc: Global) -> MemoryFolder
        ensures files { (n : List ℕ) → (folder_of result).files n ≡ None }
        ensures image { (folder_of result).image ≡ None }
        ensures draft { (folder_of result).draft ≡ None }
    {
        MemoryFolder {
            alloc,
            places: Vec::new(alloc),
            image: None,
            draft: None,
        }
    }

    /// A copy of the folder, with copies of its files.
    pub(crate) fn copy(&self) -> Result<MemoryFolder, AllocError>
        ensures { IfOk result (λ copied. folder_of copied ≡ folder_of self.now) }
    {
        let places = copy_places(self.alloc, self.places.as_slice())?;
        let image = copy_name(self.alloc, &self.image)?;
        let draft = copy_name(self.alloc, &self.draft)?;
        Ok(MemoryFolder {
            alloc: self.alloc,
            places,
            image,
            draft,
        })
    }

    /// The bytes of a file.
    pub(crate) fn file(&self, name: &[u8]) -> Option<&[u8]>
        ensures { MatchOption result ((folder_of self.now).files name.now ≡ None)
            (λ bytes. (f : File) × ((folder_of self.now).files name.now ≡ Some f)
            × (bytes.now ≡ f.bytes)) }
    {
        match file_at(self.places.as_slice(), name) {
            None => None,
            Some(file) => Some(file.bytes.as_slice()),
        }
    }

    /// Reads the file that has a name, from a place on.
    pub(crate) fn read(&self, name: &[u8], pos: u64, buf: &mut [u8]) -> MapRead
        requires { 0 < length buf.old }
        ensures count { IsWithin result (length buf.old) }
        ensures read { IsRead ((folder_of self.now).files name.now) pos buf.new result }
        ensures full { IsFull ((folder_of self.now).files name.now) pos (length buf.old) result }
    {
        match self.file(name) {
            None => MapRead::Absent,
            Some(bytes) => MapRead::Bytes(copy_part(bytes, pos, buf)),
        }
    }

    /// Reads the open image.
    pub(crate) fn read_image(&self, pos: u64, buf: &mut [u8]) -> usize
        requires { IsSome self.now.image }
        ensures { IsImageRead (file_named (folder_of self.now).image (folder_of self.now).files) pos buf.new result }
    {
        let Some(name) = &self.image else {
            unreachable!();
        };
        match self.file(name.as_slice()) {
            None => 0,
            Some(bytes) => copy_part(bytes, pos, buf),
        }
    }

    /// Takes away the file that has a name.
    pub(crate) fn remove(&mut self, name: &[u8])
        ensures { folder_of self.new ≡ after_done (folder_of self.old) (map_remove name.now) }
    {
        let _ = take_file(&mut self.places, name);
    }

    /// Whether there is a file of this name.
    pub(crate) fn has(&self, name: &[u8]) -> bool
        ensures { result ≡ is_some ((folder_of self.now).files name.now) }
    {
        match self.file(name) {
            None => false,
            Some(_) => true,
        }
    }

    /// A copy of the file that has a name.
    pub(crate) fn copy_file(&self, name: &[u8]) -> Result<Option<MemoryFile>, AllocError>
        ensures { IfOk result (λ copied. file_of copied ≡ (folder_of self.now).files name.now) }
    {
        let Some(file) = file_at(self.places.as_slice(), name) else {
            return Ok(None);
        };
        Ok(Some(MemoryFile {
            bytes: Vec::from_slice(self.alloc, file.bytes.as_slice())?,
            regular: file.regular,
        }))
    }

    /// Puts a file under a name, or nothing.
    pub(crate) fn put(&mut self, name: &[u8], file: Option<MemoryFile>) -> Result<(), AllocError>
        ensures files { OnOk result ((folder_of self.new).files
            ≡ put (folder_of self.old).files name.now (file_of file)) }
        ensures image { (folder_of self.new).image ≡ (folder_of self.old).image }
        ensures draft { (folder_of self.new).draft ≡ (folder_of self.old).draft }
    {
        let i = place_of(self.alloc, &mut self.places, name)?;
        self.places[i].file = file;
        Ok(())
    }

    /// Opens the file of a name as the image. An absent file is made if that is asked for.
    pub(crate) fn open(&mut self, name: &[u8], make: bool) -> Result<ImageKind, AllocError>
        ensures kind { IfOk result (λ kind. kind ≡ kind_of ((folder_of self.old).files name.now) make) }
        ensures opened { OnOk result (folder_of self.new
            ≡ after_done (folder_of self.old) (image_open name.now make)) }
        ensures same { OnErr result (folder_of self.new ≡ folder_of self.old) }
    {
        let opened = Vec::from_slice(self.alloc, name)?;
        let i = place_of(self.alloc, &mut self.places, name)?;
        let kind = self.places[i].open(self.alloc, make);
        self.image = opened_name(kind, opened);
        Ok(kind)
    }

    /// Writes at a place of the open image.
    pub(crate) fn write(&mut self, pos: u64, piece: &[u8]) -> Result<(), AllocError>
        requires open { IsSome self.old.image }
        requires place { pos + length piece.now < 2 ^ 63 }
        ensures written { OnOk result (folder_of self.new
            ≡ after_done (folder_of self.old) (image_write pos piece.now)) }
        ensures same { OnErr result (folder_of self.new ≡ folder_of self.old) }
    {
        let Some(name) = &self.image else {
            unreachable!();
        };
        let i = place_of(self.alloc, &mut self.places, name.as_slice())?;
        self.places[i].write(self.alloc, pos as usize, piece)?;
        Ok(())
    }

    /// Writes at a place of a file.
    pub(crate) fn write_at(
        &mut self,
        name: &[u8],
        pos: usize,
        piece: &[u8],
    ) -> Result<(), AllocError>
        requires { pos + length piece.now < 2 ^ 63 }
        ensures { OnOk result ((folder_of self.new).files ≡ put (folder_of self.old).files name.now
            (Some (written_file ((folder_of self.old).files name.now) pos piece.now))) }
    {
        let i = place_of(self.alloc, &mut self.places, name)?;
        self.places[i].write(self.alloc, pos, piece)
    }

    /// Begins an empty draft under a name. A file that had the name is lost.
    pub(crate) fn begin(&mut self, name: &[u8]) -> Result<(), AllocError>
        ensures begun { OnOk result (folder_of self.new ≡ after_done (folder_of self.old) (draft_begin name.now)) }
        ensures same { OnErr result (folder_of self.new ≡ folder_of self.old) }
    {
        let begun = Vec::from_slice(self.alloc, name)?;
        let i = place_of(self.alloc, &mut self.places, name)?;
        self.places[i].empty(self.alloc);
        self.draft = Some(begun);
        Ok(())
    }

    /// Adds a piece at the begun draft's end.
    pub(crate) fn append(&mut self, piece: &[u8]) -> Result<(), AllocError>
        requires { IsSome self.old.draft }
        ensures appended { OnOk result (folder_of self.new
            ≡ after_done (folder_of self.old) (draft_append piece.now)) }
        ensures same { OnErr result (folder_of self.new ≡ folder_of self.old) }
    {
        let Some(name) = &self.draft else {
            unreachable!();
        };
        let i = place_of(self.alloc, &mut self.places, name.as_slice())?;
        self.places[i].append(self.alloc, piece)?;
        Ok(())
    }

    /// Moves the file that has one name to another.
    pub(crate) fn rename(&mut self, from: &[u8], to: &[u8]) -> Result<(), AllocError>
        ensures files { OnOk result ((folder_of self.new).files
            ≡ put (put (folder_of self.old).files from.now None) to.now
            ((folder_of self.old).files from.now)) }
        ensures same { OnErr result ((folder_of self.new).files ≡ (folder_of self.old).files) }
        ensures image { (folder_of self.new).image ≡ (folder_of self.old).image }
        ensures draft { (folder_of self.new).draft ≡ (folder_of self.old).draft }
    {
        let i = place_of(self.alloc, &mut self.places, to)?;
        let moved = take_file(&mut self.places, from);
        self.places[i].file = moved;
        Ok(())
    }

    /// Makes a call again that returned Ok.
    pub(crate) fn make_again(&mut self, act: &Act) -> Result<(), AllocError>
        ensures { OnOk result (folder_of self.new ≡ after_done (folder_of self.old) (call_of act.now)) }
    {
        match act {
            Act::ImageOpen(name, make) => {
                self.open(name.as_slice(), *make)?;
                Ok(())
            }
            Act::ImageWrite(pos, piece) => self.write_again(*pos, piece.as_slice()),
            Act::DraftBegin(name) => self.begin(name.as_slice()),
            Act::DraftAppend(piece) => self.append_again(piece.as_slice()),
            Act::DraftPublish(name) => self.publish_again(name.as_slice()),
            Act::MapRemove(name) => {
                self.remove(name.as_slice());
                Ok(())
            }
            Act::ImageRead(_, _, _) => Ok(()),
            Act::ImageSync => Ok(()),
            Act::MapRead(_, _, _, _) => Ok(()),
            Act::DraftSync => Ok(()),
            Act::MapSettle(_) => Ok(()),
        }
    }

    fn write_again(&mut self, pos: u64, piece: &[u8]) -> Result<(), AllocError>
        ensures { OnOk result (folder_of self.new ≡ after_done (folder_of self.old) (image_write pos piece.now)) }
    {
        if self.image.is_none() {
            return Ok(());
        }
        if !fits(pos as usize, piece.len()) {
            return Err(AllocError);
        }
        self.write(pos, piece)
    }

    fn append_again(&mut self, piece: &[u8]) -> Result<(), AllocError>
        ensures { OnOk result (folder_of self.new ≡ after_done (folder_of self.old) (draft_append piece.now)) }
    {
        if self.draft.is_none() {
            return Ok(());
        }
        self.append(piece)
    }

    fn publish_again(&mut self, name: &[u8]) -> Result<(), AllocError>
        ensures { OnOk result (folder_of self.new ≡ after_done (folder_of self.old) (draft_publish name.now)) }
    {
        let Some(draft) = self.draft.take() else {
            return Ok(());
        };
        self.rename(draft.as_slice(), name)
    }

    fn open_in_part(&mut self, name: &[u8], make: bool, steps: u64) -> Result<(), AllocError>
        ensures { OnOk result (folder_of self.new
            ≡ after_failed (folder_of self.old) (image_open name.now make) steps) }
    {
        if steps == 0 {
            self.image = None;
            return Ok(());
        }
        self.open(name, make)?;
        self.image = None;
        Ok(())
    }

    fn write_in_part(&mut self, pos: u64, piece: &[u8], steps: u64) -> Result<(), AllocError>
        ensures { OnOk result (folder_of self.new
            ≡ after_failed (folder_of self.old) (image_write pos piece.now) steps) }
    {
        if steps == 0 {
            return Ok(());
        }
        self.write_again(pos, taken(piece, steps))
    }

    /// Removes the file of this name, and makes an empty one, as far as these steps go.
    fn replace_in_part(&mut self, name: &[u8], steps: u64) -> Result<(), AllocError>
        ensures files { OnOk result ((folder_of self.new).files ≡ if_any steps
            (if_any (steps - 1) (put (folder_of self.old).files name.now (Some empty_file))
            (put (folder_of self.old).files name.now None)) (folder_of self.old).files) }
        ensures image { OnOk result ((folder_of self.new).image ≡ (folder_of self.old).image) }
    {
        match steps {
            0 => Ok(()),
            1 => {
                self.remove(name);
                Ok(())
            }
            _ => self.begin(name),
        }
    }

    fn begin_in_part(&mut self, name: &[u8], steps: u64) -> Result<(), AllocError>
        ensures { OnOk result (folder_of self.new ≡ after_failed (folder_of self.old) (draft_begin name.now) steps) }
    {
        self.replace_in_part(name, steps)?;
        self.draft = None;
        Ok(())
    }

    fn append_in_part(&mut self, piece: &[u8], steps: u64) -> Result<(), AllocError>
        ensures { OnOk result (folder_of self.new ≡ after_failed (folder_of self.old) (draft_append piece.now) steps) }
    {
        if steps == 0 {
            return Ok(());
        }
        self.append_again(taken(piece, steps))
    }

    fn settle_in_part(&mut self, name: &[u8], steps: u64) -> Result<(), AllocError>
        ensures { OnOk result (folder_of self.new ≡ after_failed (folder_of self.old) (map_settle name.now) steps) }
    {
        if steps == 0 {
            return Ok(());
        }
        let draft = draft_name(self.alloc, name)?;
        if self.has(draft.as_slice()) {
            return Ok(());
        }
        let file = MemoryFile {
            bytes: Vec::new(self.alloc),
            regular: true,
        };
        self.put(draft.as_slice(), Some(file))
    }

    /// Makes the steps again of a call that failed.
    pub(crate) fn fail_again(&mut self, act: &Act, steps: u64) -> Result<(), AllocError>
        ensures { OnOk result (folder_of self.new ≡ after_failed (folder_of self.old) (call_of act.now) steps) }
    {
        match act {
            Act::ImageOpen(name, make) => self.open_in_part(name.as_slice(), *make, steps),
            Act::ImageWrite(pos, piece) => self.write_in_part(*pos, piece.as_slice(), steps),
            Act::DraftBegin(name) => self.begin_in_part(name.as_slice(), steps),
            Act::DraftAppend(piece) => self.append_in_part(piece.as_slice(), steps),
            Act::DraftPublish(_) => {
                self.draft = None;
                Ok(())
            }
            Act::MapSettle(name) => self.settle_in_part(name.as_slice(), steps),
            Act::ImageRead(_, _, _) => Ok(()),
            Act::ImageSync => Ok(()),
            Act::MapRead(_, _, _, _) => Ok(()),
            Act::DraftSync => Ok(()),
            Act::MapRemove(_) => Ok(()),
        }
    }

    /// A copy of the folder, after a call that failed after this many steps.
    pub(crate) fn failed(&self, act: &Act, steps: u64) -> Result<MemoryFolder, AllocError>
        ensures { IfOk result (λ folder. folder_of folder
            ≡ after_failed (folder_of self.now) (call_of act.now) steps) }
    {
        let mut folder = self.copy()?;
        folder.fail_again(act, steps)?;
        Ok(folder)
    }
}
