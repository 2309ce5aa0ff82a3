//! An input in memory whose reads fail as a test asks.
#![tactic(auto)]

pub mod memory;
