//! What the run of a plan reads: a source that says each of its reads.
#![tactic(auto)]

mod line;
pub mod loss;
pub mod source;
