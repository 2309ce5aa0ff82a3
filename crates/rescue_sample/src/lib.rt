//! What a rescue is handed that writes no files: a sample, which is a generated input, with its line, a clock that reads
//! 0, and a site and a console that keep nothing.
#![tactic(auto)]

pub mod blank;
pub mod clock;
mod draw;
pub mod laws;
pub mod line;
pub mod source;
