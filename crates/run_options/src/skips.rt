//! The skips of copying.

/// How far copying skips after a failed or slow read, and which read is slow. Lengths are multiples of the sector, in
/// bytes.
#[derive(Clone, Copy, Debug, PartialEq, Eq)]
pub struct Skips {
    /// The skip after the first such read.
    pub first: u64,
    /// The longest skip.
    pub most: u64,
    /// A read is slow below this number of bytes a second; with 0 none is.
    pub min_rate: u64,
}
