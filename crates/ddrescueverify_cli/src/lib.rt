//! `ddrescueverify`: from the words of the command line to the mapfile of what the output hasn't as the input gives it.
#![tactic(auto)]

mod checked;
pub mod ending;
pub mod laws;
mod message;
mod open;
mod out;
mod save;
pub mod verify;
