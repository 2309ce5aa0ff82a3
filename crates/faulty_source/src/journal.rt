//! A read as the journal of an input keeps it.

/// One read that was answered: where it began, how many bytes were asked for and given, and whether the input ended
/// after them.
#[derive(Clone, Copy, Debug, PartialEq, Eq)]
pub struct ReadEntry {
    pub pos: u64,
    pub asked: usize,
    pub given: usize,
    pub ended: bool,
}
