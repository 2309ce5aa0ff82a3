//! The command line of `ddrescuelog`: from its words to what is asked for.
#![tactic(auto)]

pub mod command;
pub mod laws;
pub mod mode;
pub mod options;
