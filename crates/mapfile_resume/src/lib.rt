//! Loads mapfiles, and resumes from one.
#![tactic(auto)]

pub mod laws;
pub mod load;
pub mod named;
pub mod resume;
