//! Numbers, sizes and intervals as users write them.
#![tactic(auto)]

pub mod error;
pub mod interval;
pub mod number;
pub mod sectors;
pub mod size;
mod suffixed;
