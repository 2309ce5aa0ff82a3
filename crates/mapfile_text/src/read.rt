//! How a mapfile's text is to be read, and why it may be no map.

use block_list::status::Status;
use thiserror::Error;

/// Whether the blocks of a map may leave gaps.
#[derive(Clone, Copy, Debug, PartialEq, Eq)]
pub enum Mode {
    /// Each block begins where the one before ends.
    Tight,
    /// A block may begin later, and the gap before it gets this status.
    Loose(Status),
}

/// Why a text is no map. Lines are counted from 1. The first faulty line decides.
#[derive(Clone, Copy, Debug, PartialEq, Eq, Error)]
pub enum MapError {
    /// All lines are comments or blank.
    #[error("NoStatusLine")]
    NoStatusLine,
    /// The first line that says something isn't a position, a current status and a pass.
    #[error("BadStatusLine")]
    BadStatusLine { line: usize },
    /// A later line that says something isn't a position, a size and a status.
    #[error("BadBlockLine")]
    BadBlockLine { line: usize },
    /// A block begins past the end of the one before.
    #[error("Gap")]
    Gap { line: usize },
    /// A block begins before the end of the one before.
    #[error("Overlap")]
    Overlap { line: usize },
    /// A position, a size or a block's end is 2^63 or more, or a pass 2^32 or more.
    #[error("TooLarge")]
    TooLarge { line: usize },
    /// The text has more than 268,435,456 bytes.
    #[error("TooLong")]
    TooLong,
    /// There wasn't enough memory.
    #[error("NoMemory")]
    NoMemory,
}
