//! How far a run has come in its map.
use crate::stop::TrimMode;

/// How far a run has come in its map.
#[derive(Clone, Copy, Debug, PartialEq, Eq)]
pub struct Progress {
    /// The pass, counted from 1 within its phase.
    pub pass: u32,
    /// Where the next search begins, except in trimming.
    pub cursor: u64,
    /// Where trimming is.
    pub mode: TrimMode,
    /// How far copying jumps next.
    pub skip: u64,
}
