//! Fill mode and generate mode: sweeps over a map, piece by piece.
#![tactic(auto)]

pub mod fill;
pub mod generate;
pub mod job;
pub mod laws;
mod mark;
mod mode;
mod search;
mod sweeping;
