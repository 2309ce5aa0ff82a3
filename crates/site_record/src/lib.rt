//! Notes of the calls of a site, in order.
#![tactic(auto)]

pub mod memory;
pub mod recorder;
