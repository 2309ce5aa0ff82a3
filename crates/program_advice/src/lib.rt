//! What helps a person besides the message of a program: after it one line more, which names the cause of an answer and
//! what can be done. Reads past the kernel's cache have lines of their own, one before the run and one after it.
#![tactic(auto)]

pub mod cause;
pub mod direct;
pub mod files;
pub mod left;
pub mod line;
pub mod mapfile;
pub mod put;
pub mod reason;
pub mod site;
mod texts;
pub mod usage;
