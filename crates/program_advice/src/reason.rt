//! The system's errors in words.
ghost use Rattle.std.specs.Prelude.{◌≤◌, length};

use std::io::{self, ErrorKind};

/// What the kernel calls an error that has no kind of its own.
fn number_text(code: Option<i32>) -> &'static str
    ensures { length result.now ≤ 60 }
{
    match code {
        Some(5) => "Input/output error",
        Some(6) => "No such device or address",
        Some(19) => "No such device",
        Some(23 | 24) => "Too many open files",
        Some(75) => "Value too large",
        Some(123) => "No medium found",
        Some(124) => "Wrong medium type",
        _ => "the system doesn't say why",
    }
}

/// Why the system refused a call, in the words of its manual.
pub fn reason_text(error: &io::Error) -> &'static str
    ensures { length result.now ≤ 60 }
{
    match error.kind() {
        ErrorKind::NotFound => "No such file or directory",
        ErrorKind::PermissionDenied => "Permission denied",
        ErrorKind::AlreadyExists => "File exists",
        ErrorKind::WouldBlock => "Resource temporarily unavailable",
        ErrorKind::NotADirectory => "Not a directory",
        ErrorKind::IsADirectory => "Is a directory",
        ErrorKind::ReadOnlyFilesystem => "Read-only file system",
        ErrorKind::FilesystemLoop => "Too many levels of symbolic links",
        ErrorKind::StaleNetworkFileHandle => "Stale file handle",
        ErrorKind::InvalidInput => "Invalid argument",
        ErrorKind::TimedOut => "Connection timed out",
        ErrorKind::WriteZero => "nothing more can be written to it",
        ErrorKind::StorageFull => "No space left on device",
        ErrorKind::NotSeekable => "it is a pipe or a terminal, which has no positions",
        ErrorKind::QuotaExceeded => "Disk quota exceeded",
        ErrorKind::FileTooLarge => "File too large",
        ErrorKind::ResourceBusy => "Device or resource busy",
        ErrorKind::ExecutableFileBusy => "Text file busy",
        ErrorKind::InvalidFilename => "File name too long",
        ErrorKind::BrokenPipe => "Broken pipe",
        ErrorKind::OutOfMemory => "Cannot allocate memory",
        ErrorKind::Unsupported => "Operation not supported",
        ErrorKind::CrossesDevices if error.raw_os_error().is_none() => {
            "it overlaps the infile, or lies on it"
        }
        _ => number_text(error.raw_os_error()),
    }
}
