//! `ddrescuelog`: from the words of the command line to what is found in mapfiles and printed of them.
#![tactic(auto)]

mod create;
pub mod ending;
mod find;
pub mod laws;
mod list;
mod load;
pub mod log;
mod message;
mod pieces;
mod places;
mod print;
mod remove;
mod summary;
