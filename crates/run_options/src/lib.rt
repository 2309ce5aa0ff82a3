//! What options ask of a run: the structs that the options, the run's settings and its rules have in common.
#![tactic(auto)]

pub mod limits;
pub mod passes;
pub mod settings;
pub mod skips;
