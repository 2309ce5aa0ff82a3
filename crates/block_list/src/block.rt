//! A block, and a range of positions.
use crate::status::Status;

/// Positions from `pos` up to `pos + size`, in bytes, that have the same status.
#[derive(Clone, Copy, Debug, PartialEq, Eq)]
pub struct Block {
    pub pos: u64,
    pub size: u64,
    pub status: Status,
}

/// Positions from `from` up to `to`, in bytes.
#[derive(Clone, Copy, Debug, PartialEq, Eq)]
pub struct Range {
    pub from: u64,
    pub to: u64,
}
