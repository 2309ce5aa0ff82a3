//! The mapfile: found, and read piece by piece.
ghost use Rattle.std.specs.Prelude.{◌≡◌, ◌<◌, ◌≤◌, ℕ, true, None, Some, IsNone, IsTrue, length, string_bytes, option_map, IfSome, IfOk, OnOk, OnErr};
ghost use Rattle.crash_site.specs.FileAnswers.{IsRead, IsWithin};
ghost use Rattle.kernel_files.specs.Volume.{unlink};
ghost use Rattle.kernel_files.specs.Answers.{volume, bytes_at};
ghost use Rattle.kernel_files.specs.Steps.{MadeBy, IsBroken};
ghost use Rattle.kernel_files.specs.MapCalls.{Removes};
ghost use Rattle.kernel_laws.specs.Refines.{files_of};
ghost use Rattle.folder_site.specs.Pieces.{IsWholeRead};
ghost use Rattle.folder_site.specs.Told.{IsKept};

use crate::folder::apart::Apart;
use crate::folder::held::{HeldMap, check_map_free};
use crate::folder::names::find_reached;
use crate::folder::pieces::read_whole;
use crash_site::site::MapRead;
use kernel_files::kernel::Kernel;
use kernel_files::standing::{Access, Standing};
use real_files::outcome::if_there;
use std::alloc::Global;
use std::io::{self, ErrorKind};

/// A mapfile that is being read, under its name.
#[derive(Drop)]
pub(super) struct OpenMap<K: Kernel> {
    pub file: K::Open,
    pub name: String,
}

/// The file that has a mapfile's name. What is no regular file is an error, since a pipe would wait for its writer, and
/// a draft would take a device's place; so is a file that is to stay apart.
pub(super) fn find_map<K: Kernel>(
    kernel: &K,
    apart: &Apart<'_>,
    name: &str,
) -> io::Result<Option<Standing>>
    ensures { IfOk result (λ found. IsNone found → IsTrue (K.told kernel.now).tells
        → (volume (K.told kernel.now)).names name.now ≡ None) }
{
    let Some(found) = find_reached(kernel, name)? else {
        return Ok(None);
    };
    if !found.is_file() {
        return Err(ErrorKind::InvalidInput.into());
    }
    apart.check(found.identity)?;
    Ok(Some(found))
}

fn open_map<K: Kernel>(
    kernel: &K,
    alloc: Global,
    apart: &Apart<'_>,
    name: &str,
) -> io::Result<Option<OpenMap<K>>>
    ensures there { IfOk result (λ found. IfSome found (λ map. (string_bytes map.name ≡ name.now)
        × (IsTrue (K.told kernel.now).tells
        → (volume (K.told kernel.now)).names name.now ≡ Some (K.number map.file)))) }
    ensures absent { IfOk result (λ found. IsNone found → IsTrue (K.told kernel.now).tells
        → (volume (K.told kernel.now)).names name.now ≡ None) }
{
    if find_map(kernel, apart, name)?.is_none() {
        return Ok(None);
    }
    let Some(file) = if_there(kernel.open(name, Access::Read))? else {
        return Ok(None);
    };
    let name = String::from_str(alloc, name)?;
    Ok(Some(OpenMap { file, name }))
}

fn is_of<K: Kernel>(kept: &Option<OpenMap<K>>, name: &str) -> bool
    ensures { result ≡ true → option_map (λ m. string_bytes m.name) kept.now ≡ Some name.now }
{
    match kept {
        Some(map) => map.name.as_str() == name,
        None => false,
    }
}

/// A place in a mapfile.
#[derive(Clone, Copy)]
pub(super) struct Place<'a> {
    pub name: &'a str,
    pub pos: u64,
}

/// Reads a piece of a file that is there. Less than the buffer takes is its last one.
fn read_piece<K: Kernel>(
    kernel: &K,
    file: &K::Open,
    pos: u64,
    buf: &mut [u8],
) -> io::Result<MapRead>
    ensures { IfOk result (λ read. (n : ℕ) × (read ≡ MapRead.Bytes n) × (n ≤ length buf.old)
        × (IsTrue (K.told kernel.now).tells
        → IsWholeRead (bytes_at (K.told kernel.now) (K.number file.now)) pos (length buf.old) buf.new n)) }
{
    let n = read_whole(kernel, file, pos, buf)?;
    Ok(MapRead::Bytes(n))
}

/// Opens a mapfile, or keeps it open while its reading goes on.
fn keep_map<K: Kernel>(
    kernel: &K,
    alloc: Global,
    apart: &Apart<'_>,
    kept: &mut Option<OpenMap<K>>,
    place: Place<'_>,
) -> io::Result<()>
    ensures there { OnOk result (IsTrue (K.told kernel.now).tells
        → IsKept (K.told kernel.now) (option_map (λ m. (string_bytes m.name, K.number m.file)) kept.old)
        → (volume (K.told kernel.now)).names place.entry.name.now ≡ option_map (λ m. K.number m.file) kept.new) }
    ensures kept { IsTrue (K.told kernel.now).tells
        → IsKept (K.told kernel.now) (option_map (λ m. (string_bytes m.name, K.number m.file)) kept.old)
        → IsKept (K.told kernel.now) (option_map (λ m. (string_bytes m.name, K.number m.file)) kept.new) }
{
    if place.pos != 0 && is_of(kept, place.name) {
        return Ok(());
    }
    *kept = None;
    *kept = open_map(kernel, alloc, apart, place.name)?;
    Ok(())
}

/// Reads a mapfile at a place. It is opened when its reading begins, and kept open for the reads that follow.
pub(super) fn read_map<K: Kernel>(
    kernel: &K,
    alloc: Global,
    apart: &Apart<'_>,
    kept: &mut Option<OpenMap<K>>,
    place: Place<'_>,
    buf: &mut [u8],
) -> io::Result<MapRead>
    requires { 0 < length buf.old }
    ensures count { IfOk result (λ read. IsWithin read (length buf.old)) }
    ensures read { IfOk result (λ read. IsTrue (K.told kernel.now).tells
        → IsKept (K.told kernel.now) (option_map (λ m. (string_bytes m.name, K.number m.file)) kept.old)
        → IsRead (files_of (volume (K.told kernel.now)) place.entry.name.now) place.entry.pos buf.new read) }
    ensures kept { IsTrue (K.told kernel.now).tells
        → IsKept (K.told kernel.now) (option_map (λ m. (string_bytes m.name, K.number m.file)) kept.old)
        → IsKept (K.told kernel.now) (option_map (λ m. (string_bytes m.name, K.number m.file)) kept.new) }
{
    keep_map(kernel, alloc, apart, kept, place)?;
    let Some(map) = kept else {
        return Ok(MapRead::Absent);
    };
    read_piece(kernel, &map.file, place.pos, buf)
}

/// Removes a mapfile, but none that another run has locked.
pub(super) fn remove_map<K: Kernel>(
    kernel: &mut K,
    held: &Option<HeldMap<K>>,
    name: &str,
) -> io::Result<()>
    ensures ok { OnOk result (MadeBy (Removes (volume (K.told kernel.old)) name.now)
        (K.told kernel.old) (K.told kernel.new)) }
    ensures err { OnErr result (MadeBy (IsBroken (unlink name.now)) (K.told kernel.old) (K.told kernel.new)) }
{
    if let Ok(found) = kernel.reached(name) {
        check_map_free(kernel, held, name, &found)?;
    }
    match kernel.unlink(name) {
        Err(error) if error.kind() == ErrorKind::NotFound => Ok(()),
        outcome => outcome,
    }
}
