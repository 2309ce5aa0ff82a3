//! The lines of a rescue, as a program reads them that they are piped to.
#![tactic(auto)]

mod cursor;
pub mod laws;
pub mod lines;
