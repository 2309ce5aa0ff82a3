//! Walks along a map within a domain, and what a map has of each status.
#![tactic(auto)]

pub mod laws;
pub mod pieces;
pub mod summary;
