//! The map of a rescue: a status for each position.
#![tactic(auto)]

pub mod areas;
pub mod block;
pub mod laws;
pub mod near;
pub mod status;
pub mod tiles;
pub mod types;
