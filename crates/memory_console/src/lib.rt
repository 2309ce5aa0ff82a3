//! A clock, a console and a feed in memory, which read and fail as they are told.
#![tactic(auto)]

pub mod memory;
