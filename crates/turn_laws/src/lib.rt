//! What stays from turn to turn of a rescue, wherever it began, and what it leaves at its end: definitions and laws.
#![tactic(auto)]

pub mod laws;
