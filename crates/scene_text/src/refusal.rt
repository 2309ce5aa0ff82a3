//! Why a scene can't go on.
use block_list::tiles::NoMemory;
use memory_console::memory::MemoryConsole;
use memory_site::memory::MemorySite;
use std::alloc::{AllocError, AllocFailed};
use std::io;

/// Why a line has no results.
#[derive(Clone, Copy)]
pub enum Refusal {
    /// The line can't be read, or asks for what can't be.
    NotUnderstood,
    /// There wasn't enough memory.
    NoMemory,
}

impl From<NoMemory> for Refusal {
    fn from(_error: NoMemory) -> Refusal {
        Refusal::NoMemory
    }
}

impl From<AllocError> for Refusal {
    fn from(_error: AllocError) -> Refusal {
        Refusal::NoMemory
    }
}

impl<T: Drop> From<AllocFailed<T>> for Refusal {
    fn from(_error: AllocFailed<T>) -> Refusal {
        Refusal::NoMemory
    }
}

/// A write to memory fails for lack of memory alone.
impl From<io::Error> for Refusal {
    fn from(_error: io::Error) -> Refusal {
        Refusal::NoMemory
    }
}

/// The exit status of a run that found no memory.
const STARVED: u8 = 4;

/// Refuses a run with this exit status that found no memory: a scene can't ask for that. Before the run the site had
/// found none `before` times.
pub fn refuse_starved(
    status: u8,
    before: u64,
    site: &MemorySite,
    console: &MemoryConsole,
) -> Result<(), Refusal> {
    if status == STARVED || site.starved() > before || console.starved() > 0 {
        return Err(Refusal::NoMemory);
    }
    Ok(())
}
