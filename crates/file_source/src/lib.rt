//! The input of a rescue as a real file or device.
#![tactic(auto)]

mod expected_reads;
pub mod file;
mod opening;
