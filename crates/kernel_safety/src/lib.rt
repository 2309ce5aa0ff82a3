//! The headline at each stop of the kernel.
#![tactic(auto)]

pub mod memory;
pub mod rescue;
