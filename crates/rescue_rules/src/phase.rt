//! The phases of a rescue.

/// How many times copying goes over the input.
pub const COPYING_PASSES: u32 = 5;

/// The phases of a rescue, in order (GNU ddrescue manual, "Algorithm").
#[derive(Clone, Copy, Debug, PartialEq, Eq)]
pub enum Phase {
    /// Non-tried positions are read, a cluster at a time.
    Copying,
    /// The edges of non-trimmed runs are found, a sector at a time.
    Trimming,
    /// Non-scraped positions are read, a sector at a time.
    Scraping,
    /// Bad sectors are read again.
    Retrying,
}
