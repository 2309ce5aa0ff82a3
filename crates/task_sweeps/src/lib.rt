//! Fill mode and generate mode, from the maps and files that they name to the last save.
#![tactic(auto)]

pub mod fill;
pub mod generate;
mod pattern;
mod sweep;
