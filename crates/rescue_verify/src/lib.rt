//! Compares what a map calls finished with the input, once more: piece by piece, by one read of the input and one of
//! the image, which is never written.
#![tactic(auto)]

pub mod compare;
pub mod halt;
pub mod laws;
mod look;
pub mod piece;
pub mod tally;
