//! Tokens of a read on its way into the output and the map. None can be dropped: what was read is landed and booked as
//! finished, or booked as failed, or set aside in plain sight. No call of this crate takes memory.
#![tactic(auto)]

pub mod book;
pub mod fetch;
pub mod land;
pub mod token;
