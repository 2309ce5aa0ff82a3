//! The rules of a rescue, as definitions and laws, and the few types that these speak of.
#![tactic(auto)]

pub mod laws;
pub mod phase;
pub mod progress;
pub mod report;
pub mod stop;
pub mod tally;
