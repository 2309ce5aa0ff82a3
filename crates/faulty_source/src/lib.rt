//! What a rescue reads from: an input whose reads may fail.
#![tactic(auto)]

pub mod bad_range;
pub mod journal;
pub mod source;
