//! How the programs start and end: their standard streams are open, the words of the command line are collected, and
//! what comes of them is an exit status. What the system gives, as its streams and arguments, no contract tells.
#![tactic(auto)]

pub mod status;
pub mod streams;
pub mod words;
