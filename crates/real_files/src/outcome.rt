//! What the outcome of a call of the system means.
ghost use Rattle.std.specs.Prelude.{◌≡◌, ◌≢◌, ◌⊎◌, ◌↔◌, pos, true, false, Ok, Err, None, Some, IsOk, IsErr, IsErrAnd, IsTrue, IfOk, IfErr};
ghost use Rattle.std.specs.IoError.{error_kind, raw_os_error};
ghost use Rattle.real_files.specs.Medium.{is_medium_code};

use std::fs::TryLockError;
use std::io::{self, ErrorKind};

/// What was found, and None if nothing is there. Whatever else went wrong stays an error.
pub fn if_there<T>(outcome: io::Result<T>) -> io::Result<Option<T>>
    ensures there { IfOk outcome (λ value. result ≡ Ok (Some value)) }
    ensures absent { IfErr outcome (λ e. error_kind e ≡ ErrorKind.NotFound → result ≡ Ok None) }
    ensures other { IfErr outcome (λ e. error_kind e ≢ ErrorKind.NotFound → IsErr result) }
{
    match outcome {
        Ok(value) => Ok(Some(value)),
        Err(error) if error.kind() == ErrorKind::NotFound => Ok(None),
        Err(error) => Err(error),
    }
}

/// Whether a folder was synced. If the file system has no such operation, nothing more can be asked of it.
pub fn folder_synced(outcome: io::Result<()>) -> io::Result<()>
    ensures { IsOk result ↔ (IsOk outcome ⊎ IsErrAnd outcome (λ e. error_kind e ≡ ErrorKind.InvalidInput)) }
{
    match outcome {
        Err(error) if error.kind() == ErrorKind::InvalidInput => Ok(()),
        outcome => outcome,
    }
}

/// What was opened, and None if it may not be opened and isn't needed. Whatever else went wrong stays an error.
pub fn if_allowed<T>(outcome: io::Result<T>, needed: bool) -> io::Result<Option<T>>
    ensures there { IfOk outcome (λ value. result ≡ Ok (Some value)) }
    ensures denied { needed ≡ false
        → IfErr outcome (λ e. error_kind e ≡ ErrorKind.PermissionDenied → result ≡ Ok None) }
    ensures needed { needed ≡ true → IsErr outcome → IsErr result }
    ensures other { IfErr outcome (λ e. error_kind e ≢ ErrorKind.PermissionDenied → IsErr result) }
{
    match outcome {
        Ok(value) => Ok(Some(value)),
        Err(error) if !needed && error.kind() == ErrorKind::PermissionDenied => Ok(None),
        Err(error) => Err(error),
    }
}

/// Whether no other run holds a file. If the file system has no locks nothing is held.
pub fn not_held(outcome: Result<(), TryLockError>) -> io::Result<()>
    ensures { IsErr result ↔ (outcome ≡ Err TryLockError.WouldBlock) }
{
    match outcome {
        Err(TryLockError::WouldBlock) => Err(ErrorKind::WouldBlock.into()),
        _ => Ok(()),
    }
}

/// Whether what is no folder could be removed, after it was tried to remove it as a folder: the kernel looks at the
/// rights first.
pub fn removable(outcome: io::Result<()>) -> io::Result<()>
    ensures { IsOk result ↔ IsErrAnd outcome (λ e. error_kind e ≡ ErrorKind.NotADirectory) }
{
    match outcome {
        Err(error) if error.kind() == ErrorKind::NotADirectory => Ok(()),
        Err(error) => Err(error),
        Ok(()) => Err(ErrorKind::NotFound.into()),
    }
}

/// The kernel's numbers of errors by which a medium doesn't give what is asked for. It can't be read there, there is no
/// data, the data is damaged, it takes too long, or a device that is reached through another one failed.
const EIO: i32 = 5;

const ENODATA: i32 = 61;

const EILSEQ: i32 = 84;

const ETIMEDOUT: i32 = 110;

const EREMOTEIO: i32 = 121;

/// Those of a driver, which only a read past the kernel's cache meets on a block device. The device is busy or has no
/// room to note a sector, another computer has reserved it, its link failed, it gives a command less time than it
/// takes, or it doesn't know the command there. A file system means something else by them.
const EBUSY: i32 = 16;

const ENOSPC: i32 = 28;

const EBADE: i32 = 52;

const ETIME: i32 = 62;

const ENOLINK: i32 = 67;

const EOPNOTSUPP: i32 = 95;

/// Whether a read failed at its medium, so that others may go on, and not since the file or device is gone. `is_direct`
/// says of the read whether it went past the kernel's cache.
pub fn is_of_medium(error: &io::Error, is_direct: bool) -> bool
    ensures { result ≡ is_medium_code is_direct (raw_os_error error.now) }
{
    match error.raw_os_error() {
        Some(EIO | ENODATA | EILSEQ | ETIMEDOUT | EREMOTEIO) => true,
        Some(EBUSY | ENOSPC | EBADE | ETIME | ENOLINK | EOPNOTSUPP) => is_direct,
        _ => false,
    }
}

/// The error that says that a device is in use.
pub fn in_use() -> io::Error
    ensures { raw_os_error result ≡ Some (pos 16) }
{
    io::Error::from_raw_os_error(EBUSY)
}

/// Whether an error of an open says that a device is in use.
pub fn is_in_use(error: &io::Error) -> bool
    ensures { IsTrue result ↔ (raw_os_error error.now ≡ Some (pos 16)) }
{
    error.raw_os_error() == Some(EBUSY)
}
