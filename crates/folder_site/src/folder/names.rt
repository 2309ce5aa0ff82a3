//! What has a name, opened or found, and the folder that holds it.
ghost use Rattle.std.specs.Prelude.{◌≡◌, true, Some, None, IsSome, IsNone, IsTrue, IfOk, IfErr, IfSome};
ghost use Rattle.std.specs.IoError.{error_kind};
ghost use Rattle.kernel_files.specs.Volume.{folder_of};
ghost use Rattle.kernel_files.specs.Answers.{volume};

use kernel_files::kernel::Kernel;
use kernel_files::standing::{Access, Kind, Standing};
use std::io::{self, ErrorKind};

/// The folder in which the file lies that a name reaches.
fn open_folder<K: Kernel>(kernel: &K, name: &str) -> io::Result<K::Folder>
    ensures { IfOk result (λ folder. IsTrue (K.told kernel.now).tells → K.text folder ≡ folder_of name.now) }
{
    if kernel.found(name)?.kind == Kind::Link {
        kernel.open_target_folder(name)
    } else {
        kernel.open_folder(name)
    }
}

/// The folder of a file. One that can't be read can't be synced: that is an error if the file was made here, since its
/// entry would not be durable.
pub(super) fn folder_for<K: Kernel>(
    kernel: &K,
    name: &str,
    made: bool,
) -> io::Result<Option<K::Folder>>
    ensures folder { IfOk result (λ found. IfSome found (λ folder. IsTrue (K.told kernel.now).tells
        → K.text folder ≡ folder_of name.now)) }
    ensures made { IfOk result (λ found. made ≡ true → IsSome found) }
{
    match open_folder(kernel, name) {
        Ok(folder) => Ok(Some(folder)),
        Err(error) if !made && error.kind() == ErrorKind::PermissionDenied => Ok(None),
        Err(error) => Err(error),
    }
}

/// Opens a file for this, or, if that isn't granted, only to write it.
pub(super) fn open_as<K: Kernel>(kernel: &K, name: &str, access: Access) -> io::Result<K::Open>
    ensures there { IfOk result (λ file. IsTrue (K.told kernel.now).tells
        → (volume (K.told kernel.now)).names name.now ≡ Some (K.number file)) }
    ensures absent { IfErr result (λ e. error_kind e ≡ ErrorKind.NotFound → IsTrue (K.told kernel.now).tells
        → (volume (K.told kernel.now)).names name.now ≡ None) }
{
    match kernel.open(name, access) {
        Err(error) if error.kind() == ErrorKind::PermissionDenied => {
            kernel.open(name, Access::Write)
        }
        outcome => outcome,
    }
}

/// Opens a file to read and write it, or only to write it, if it is there.
pub(super) fn open_found<K: Kernel>(kernel: &K, name: &str) -> io::Result<Option<K::Open>>
    ensures there { IfOk result (λ found. IfSome found (λ file. IsTrue (K.told kernel.now).tells
        → (volume (K.told kernel.now)).names name.now ≡ Some (K.number file))) }
    ensures absent { IfOk result (λ found. IsNone found → IsTrue (K.told kernel.now).tells
        → (volume (K.told kernel.now)).names name.now ≡ None) }
{
    match open_as(kernel, name, Access::Both) {
        Ok(file) => Ok(Some(file)),
        Err(error) if error.kind() == ErrorKind::NotFound => Ok(None),
        Err(error) => Err(error),
    }
}

/// What has a name, if anything has it. A link is not followed.
pub(super) fn find<K: Kernel>(kernel: &K, name: &str) -> io::Result<Option<Standing>>
    ensures { IfOk result (λ found. IsNone found → IsTrue (K.told kernel.now).tells
        → (volume (K.told kernel.now)).names name.now ≡ None) }
{
    match kernel.found(name) {
        Ok(standing) => Ok(Some(standing)),
        Err(error) if error.kind() == ErrorKind::NotFound => Ok(None),
        Err(error) => Err(error),
    }
}

/// What a name reaches, if it reaches anything.
pub(super) fn find_reached<K: Kernel>(kernel: &K, name: &str) -> io::Result<Option<Standing>>
    ensures { IfOk result (λ found. IsNone found → IsTrue (K.told kernel.now).tells
        → (volume (K.told kernel.now)).names name.now ≡ None) }
{
    match kernel.reached(name) {
        Ok(standing) => Ok(Some(standing)),
        Err(error) if error.kind() == ErrorKind::NotFound => Ok(None),
        Err(error) => Err(error),
    }
}
