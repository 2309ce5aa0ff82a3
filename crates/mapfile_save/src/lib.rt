//! Saves a mapfile so that a stop at any moment leaves the old one or the new one.
#![tactic(auto)]

pub mod draft;
pub mod names;
pub mod save;
