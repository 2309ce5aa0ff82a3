//! What the programs put on the console: the messages of faults, and maps.
#![tactic(auto)]

pub mod faults;
pub mod message;
pub mod printing;
