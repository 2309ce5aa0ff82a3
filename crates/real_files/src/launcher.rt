//! What the program that started this one may tell it: when it is ready, and that a stop is asked for. It tells so by a
//! pipe, which is standard input then.
use std::io::{self, ErrorKind, Read};
use std::os::unix::fs::FileTypeExt;
use std::{env, fs};

/// The variable of the environment that says of standard input that it is the launcher's pipe, and its value then.
const VARIABLE: &str = "DDRESCUE_LAUNCHER";

const STANDARD_INPUT: &str = "stdin";

/// Its value if the launcher leaves the input to be read through the kernel's cache.
const THROUGH_CACHE: &str = "stdin cached";

/// The byte that says that the input that was opened is ready to be read.
const READY: u8 = b'r';

/// The byte that says that the input can't be read as it is to be.
const REFUSED: u8 = b'x';

/// What a launcher says of an input that was opened.
#[derive(Clone, Copy, Debug, PartialEq, Eq)]
pub enum Readiness {
    Ready,
    /// The input can't be read as it is to be.
    Refused,
    /// A stop is asked for, or the launcher is gone.
    Stop,
}

/// The launcher's pipe, if there is one. Once the input is ready no read of the pipe waits.
#[derive(Drop)]
pub struct Launcher {
    rt: HostRuntime,
    has_pipe: bool,
    /// Whether no launcher has an input that is a block device read past the kernel's cache.
    is_cached: bool,
    /// Whether it said that the input is ready.
    is_ready: bool,
}

/// What the environment says of standard input, if it says anything.
fn told(rt: &HostRuntime) -> io::Result<Option<String>> {
    match env::var(rt, VARIABLE) {
        Ok(text) => Ok(Some(text)),
        Err(env::VarError::OutOfMemory) => Err(ErrorKind::OutOfMemory.into()),
        Err(_) => Ok(None),
    }
}

fn is_pipe(rt: &HostRuntime) -> bool {
    matches!(fs::metadata(rt, "/proc/self/fd/0"), Ok(found) if found.file_type().is_fifo())
}

impl Launcher {
    /// Looks for the launcher's pipe. There is none unless the environment names it and it is a pipe.
    ///
    /// # Errors
    ///
    /// `OutOfMemory`.
    pub fn find(rt: &HostRuntime) -> io::Result<Launcher> {
        let Some(told) = told(rt)? else {
            return Launcher::none(rt);
        };
        let is_cached = told.as_str() == THROUGH_CACHE;
        if !(is_cached || told.as_str() == STANDARD_INPUT) || !is_pipe(rt) {
            return Launcher::none(rt);
        }
        Ok(Launcher {
            rt: rt.clone()?,
            has_pipe: true,
            is_cached,
            is_ready: false,
        })
    }

    /// No launcher tells anything.
    ///
    /// # Errors
    ///
    /// `OutOfMemory`.
    pub fn none(rt: &HostRuntime) -> io::Result<Launcher> {
        Ok(Launcher {
            rt: rt.clone()?,
            has_pipe: false,
            is_cached: true,
            is_ready: false,
        })
    }

    /// Whether there is a launcher's pipe.
    pub fn is_there(&self) -> bool {
        self.has_pipe
    }

    /// Whether an input that is a block device is read through the kernel's cache, as far as the launcher tells.
    pub fn is_cached(&self) -> bool {
        self.is_cached
    }

    /// Takes a byte from the pipe, or meets its end. It is one call of the system.
    fn take(&self) -> io::Result<Option<u8>> {
        let mut byte = [0u8; 1];
        let mut input = self.rt.stdin();
        match input.read(&mut byte)? {
            0 => Ok(None),
            _ => Ok(Some(byte[0])),
        }
    }

    /// Waits for what the launcher says of the input. It has reads wait no more just before it says that the input is
    /// ready, and a read between the two is made again, as is one that a signal ended.
    fn take_readiness(&self) -> Readiness {
        for _ in 0..u64::MAX {
            match self.take() {
                Ok(Some(READY)) => return Readiness::Ready,
                Ok(Some(REFUSED)) => return Readiness::Refused,
                Ok(_) => return Readiness::Stop,
                Err(error)
                    if matches!(error.kind(), ErrorKind::WouldBlock | ErrorKind::Interrupted) => {}
                Err(_) => return Readiness::Stop,
            }
        }
        Readiness::Stop
    }

    /// Waits for what the launcher says of the first input that was opened. It says nothing of a later one, which is
    /// ready.
    pub fn wait_ready(&mut self) -> Readiness {
        if !self.has_pipe || self.is_ready {
            return Readiness::Ready;
        }
        let readiness = self.take_readiness();
        self.is_ready = readiness == Readiness::Ready;
        readiness
    }

    /// Whether a stop is asked for now: there is a byte in the pipe, or the launcher is gone. It takes the byte.
    pub fn asks_stop(&self) -> bool {
        self.has_pipe && self.take().is_ok()
    }
}
