//! How the text of a mapfile is read.
#![tactic(auto)]

pub mod check;
mod entries;
pub mod fields;
pub mod laws;
pub mod lines;
mod numerals;
pub mod read;
