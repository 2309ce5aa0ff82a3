//! `ddrescuepart`: its answers, what it promises, and its top call.
#![tactic(auto)]

pub mod ending;
pub mod laws;
mod message;
pub mod part;
