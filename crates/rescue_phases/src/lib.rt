//! The phases of a rescue: copying in five passes, trimming, scraping and retrying.
#![tactic(auto)]

pub mod copy;
pub mod laws;
pub mod phases;
