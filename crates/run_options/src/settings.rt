//! What a run has to know of its options.

use crate::limits::Limits;
use crate::passes::Passes;
use crate::skips::Skips;

/// What a run is asked to do. Sizes and positions are in bytes.
#[derive(Clone, Copy, Debug, PartialEq, Eq)]
pub struct Settings {
    /// A read is cut at a multiple of this: 1 to 1,048,576.
    pub sector: u64,
    /// How much copying asks for at most: a multiple of the sector, at most 16,777,216.
    pub cluster: u64,
    /// A position of the input, and where it is in the output.
    pub input_position: u64,
    pub output_position: u64,
    /// How far copying jumps after a failed or slow read, and which read is slow.
    pub skips: Skips,
    /// Which phases there are, and how their passes go.
    pub passes: Passes,
    /// What may fail, and for how long, before the run stops.
    pub limits: Limits,
}
