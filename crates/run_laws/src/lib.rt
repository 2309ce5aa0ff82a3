//! How often a run of a rescue asks for a position, and what it leaves.
#![tactic(auto)]

pub mod laws;
