//! Files in memory that fail on request and that a test can stop after any call.
#![tactic(auto)]

pub mod laws;
pub mod memory;
