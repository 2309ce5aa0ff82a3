//! The calls of the system that real files are made of, and what the kernel keeps of each.
#![tactic(auto)]

pub mod kernel;
pub mod memory;
pub mod standing;
