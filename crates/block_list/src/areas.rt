//! How many areas a map has, and how long they are together.

/// How much of a set of positions there is: how many positions, and in how many areas, which are maximal intervals.
#[derive(Clone, Copy, Debug, PartialEq, Eq)]
pub struct Count {
    pub bytes: u64,
    pub areas: u64,
}
