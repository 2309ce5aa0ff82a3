//! How many bytes a comparison counts.

/// The bytes of the pieces so far.
#[derive(Clone, Copy, Debug, PartialEq, Eq)]
pub struct Tally {
    /// The bytes of the pieces that the input gave whole.
    pub compared: u64,
    /// The bytes of the pieces that the input gave whole and the image doesn't have so.
    pub differing: u64,
    /// The bytes of the pieces that the input didn't give whole.
    pub unread: u64,
}
