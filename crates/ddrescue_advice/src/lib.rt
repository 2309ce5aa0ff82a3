//! The lines of `ddrescue` before a run, and after its message.
#![tactic(auto)]

pub mod advice;
pub mod warnings;
