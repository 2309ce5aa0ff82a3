//! The exit status of a program whose work ended, or never began.
ghost use Rattle.std.specs.Prelude.{◌≡◌, ◌≢◌, IfOk, IfErr};
ghost use Rattle.std.specs.IoError.{error_kind};

use std::io::{self, ErrorKind};

/// The exit status if memory runs out before the program's work begins.
pub const NO_MEMORY: u8 = 4;

/// The exit status if something other than memory fails before the program's work begins.
pub const FAILED: u8 = 1;

/// The exit status of a program whose work ended with a status, or never began.
pub fn status_of(outcome: io::Result<u8>) -> u8
    ensures worked { IfOk outcome (λ status. result ≡ status) }
    ensures starved { IfErr outcome (λ e. error_kind e ≡ ErrorKind.OutOfMemory → result ≡ 4) }
    ensures failed { IfErr outcome (λ e. error_kind e ≢ ErrorKind.OutOfMemory → result ≡ 1) }
{
    match outcome {
        Ok(status) => status,
        Err(error) if error.kind() == ErrorKind::OutOfMemory => NO_MEMORY,
        Err(_) => FAILED,
    }
}
