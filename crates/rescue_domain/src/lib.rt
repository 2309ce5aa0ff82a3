//! The positions that a rescue asks for, and a source that gives only what a map says is finished.
#![tactic(auto)]

pub mod domain;
pub mod laws;
pub mod live;
pub mod places;
pub mod search;
pub mod test_source;
