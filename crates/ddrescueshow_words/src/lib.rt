//! The command line of `ddrescueshow`: from its words to what is asked for.
#![tactic(auto)]

pub mod command;
pub mod laws;
pub mod options;
pub mod progress;
