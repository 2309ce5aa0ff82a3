//! Where a walk along a map looks first.

/// Where a walk along a map looks first: the place of a block, as the map keeps its blocks. Whatever it says, the
/// answer is the same.
#[derive(Clone, Copy, Debug, PartialEq, Eq)]
pub struct Near {
    /// Of a map in pages the number of the page, in the order of the map.
    pub page: usize,
    /// The number of the block among those of the page, or of the whole map.
    pub block: usize,
}

impl Near {
    /// At the first block.
    pub fn start() -> Near {
        Near { page: 0, block: 0 }
    }
}
