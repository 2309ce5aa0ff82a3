//! The output of a rescue and its mapfiles as real files.
#![tactic(auto)]

pub mod folder;
pub mod real;
