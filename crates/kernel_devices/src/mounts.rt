//! The table of mounts as the kernel prints it.
ghost use Rattle.std.specs.Prelude.{◌≡◌, ◌≢◌, Ok, None, Some, IsErr, IfOk, IfErr};
ghost use Rattle.std.specs.IoError.{error_kind};

use std::fs;
use std::io::{self, ErrorKind};

/// The table of mounts.
const MOUNTS: &str = "/proc/self/mountinfo";

/// A line of the table of mounts.
#[derive(Clone, Copy)]
pub struct MountLine<'a> {
    /// The number of the mount.
    pub number: &'a str,
    /// The numbers of the device, as `8:1`.
    pub device: &'a str,
    /// The folder in which it is mounted, with a space as `\040`.
    pub folder: &'a str,
    /// The kind of its file system.
    pub kind: &'a str,
    /// What was mounted.
    pub source: &'a str,
    /// The options of the file system, which begin with how it is mounted.
    pub options: &'a str,
}

/// The number of the mount, the numbers of its device, and its folder: the first field, the third and the fifth.
fn front_fields(front: &str) -> Option<(&str, &str, &str)> {
    let mut fields = front.split_ascii_whitespace();
    let number = fields.next()?;
    let device = fields.nth(1)?;
    let folder = fields.nth(1)?;
    Some((number, device, folder))
}

/// The kind of the file system, what was mounted, and the options.
fn back_fields(back: &str) -> Option<(&str, &str, &str)> {
    let mut fields = back.split_ascii_whitespace();
    let kind = fields.next()?;
    let source = fields.next()?;
    let options = fields.next()?;
    Some((kind, source, options))
}

impl<'a> MountLine<'a> {
    /// Reads a line: six fields and some that are optional, a hyphen, and three fields.
    pub(crate) fn read(line: &'a [u8]) -> Option<MountLine<'a>> {
        let line = str::from_utf8(line).ok()?;
        let (front, back) = line.split_once(" - ")?;
        let (number, device, folder) = front_fields(front)?;
        let (kind, source, options) = back_fields(back)?;
        Some(MountLine {
            number,
            device,
            folder,
            kind,
            source,
            options,
        })
    }

    /// Whether the file system is mounted for writing.
    pub(crate) fn is_writable(&self) -> bool {
        self.options == "rw" || self.options.starts_with("rw,")
    }
}

/// The numbers of a device as the kernel prints them, as `8:1`.
pub fn device_text(rt: &HostRuntime, number: u64) -> io::Result<String> {
    let major = (number >> 32) & 0xFFFF_F000 | (number >> 8) & 0xFFF;
    let minor = (number >> 12) & 0xFFFF_FF00 | number & 0xFF;
    match format!(in rt.alloc(); "{major}:{minor}") {
        Ok(text) => Ok(text),
        Err(_) => Err(ErrorKind::OutOfMemory.into()),
    }
}

/// What the kernel told, and None if it didn't tell. That memory was short stays an error.
pub(crate) fn if_told<T>(outcome: io::Result<T>) -> io::Result<Option<T>>
    ensures told { IfOk outcome (λ value. result ≡ Ok (Some value)) }
    ensures memory { IfErr outcome (λ e. error_kind e ≡ ErrorKind.OutOfMemory → IsErr result) }
    ensures other { IfErr outcome (λ e. error_kind e ≢ ErrorKind.OutOfMemory → result ≡ Ok None) }
{
    match outcome {
        Ok(value) => Ok(Some(value)),
        Err(error) if error.kind() == ErrorKind::OutOfMemory => Err(error),
        Err(_) => Ok(None),
    }
}

/// What a file of the kernel's tells, if it can be read.
pub(crate) fn read_if_told(rt: &HostRuntime, name: &str) -> io::Result<Option<Vec<u8>>> {
    if_told(fs::read(rt, name))
}

/// The table of mounts, if it can be read.
pub fn read_mounts(rt: &HostRuntime) -> io::Result<Option<Vec<u8>>> {
    read_if_told(rt, MOUNTS)
}

/// Whether a byte ends a line.
pub(crate) fn is_newline(byte: &u8) -> bool {
    *byte == b'\n'
}

/// The line of a table about the mount with this number.
pub(crate) fn find_mount_by_number<'a>(table: &'a [u8], number: &str) -> Option<MountLine<'a>> {
    for line in table.split(is_newline) {
        if let Some(mount) = MountLine::read(line) {
            if mount.number == number {
                return Some(mount);
            }
        }
    }
    None
}

/// The first line of a table about a device.
pub fn find_mount<'a>(table: &'a [u8], device: &str) -> Option<MountLine<'a>> {
    for line in table.split(is_newline) {
        if let Some(mount) = MountLine::read(line) {
            if mount.device == device {
                return Some(mount);
            }
        }
    }
    None
}
