//! The command line of `ddrescuepart`: from its words to what is asked for.
#![tactic(auto)]

pub mod command;
