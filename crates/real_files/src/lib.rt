//! What the forms for real files use: reads and writes at a place, reads past the kernel's cache, and what is read
//! ahead. Also what an error means, and what a launcher asks.
#![tactic(auto)]

pub mod direct;
pub mod file_cursor;
pub mod launcher;
pub mod outcome;
pub mod read_ahead;
