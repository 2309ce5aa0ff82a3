//! Open files by their descriptors.
use crate::device_texts::word_after;
use crate::mounts::read_if_told;
use std::fs::File;
use std::io::{self, ErrorKind};
use std::os::fd::AsRawFd;

/// The flags of an open file, which are in octal, by what the kernel tells of the file.
fn flags_of(told: &[u8]) -> Option<u64> {
    u64::from_str_radix(word_after(told, "flags:")?, 8).ok()
}

/// What the kernel tells of an open file, if that can be read.
pub(crate) fn read_told(rt: &HostRuntime, file: &File) -> io::Result<Option<Vec<u8>>> {
    let descriptor = file.as_raw_fd();
    let name = format!(in rt.alloc(); "/proc/self/fdinfo/{descriptor}")?;
    read_if_told(rt, name.as_str())
}

/// The flags of an open file, as `open` took them. None if they can't be told.
///
/// # Errors
///
/// `OutOfMemory`.
fn open_flags(rt: &HostRuntime, file: &File) -> io::Result<Option<u64>> {
    match read_told(rt, file)? {
        Some(told) => Ok(flags_of(&told)),
        None => Ok(None),
    }
}

/// The flag of an open past the kernel's cache, `O_DIRECT`.
const PAST_CACHE: u64 = 0o40000;

/// Whether a file is open past the kernel's cache. What can't be told isn't so.
///
/// # Errors
///
/// `OutOfMemory`.
pub fn is_direct(rt: &HostRuntime, file: &File) -> io::Result<bool> {
    let flags = open_flags(rt, file)?;
    Ok(flags.is_some_and(|flags| flags & PAST_CACHE != 0))
}

/// Opens an open file once more to read it, through the kernel's cache.
///
/// # Errors
///
/// `OutOfMemory`, and what the open answers.
pub fn open_again(rt: &HostRuntime, file: &File) -> io::Result<File> {
    let descriptor = file.as_raw_fd();
    match format!(in rt.alloc(); "/proc/self/fd/{descriptor}") {
        Ok(name) => File::open(rt, name.as_str()),
        Err(_) => Err(ErrorKind::OutOfMemory.into()),
    }
}
