//! Where blocks are in the output.

/// Blocks of `size` bytes each in the output, in which the position `ipos` is at the place `opos`.
#[derive(Clone, Copy, Debug, PartialEq, Eq)]
pub struct Shape {
    /// The first position that has a place in the output.
    pub ipos: u64,
    /// The place of that position in the output.
    pub opos: u64,
    /// How many bytes a block has.
    pub size: u64,
}
