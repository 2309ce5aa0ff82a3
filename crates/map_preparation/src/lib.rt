//! What is made of a map before a run.
#![tactic(auto)]

pub mod prepare;
