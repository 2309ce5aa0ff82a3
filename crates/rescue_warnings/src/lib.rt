//! What a person is warned of before a run, by what the arguments name and what is read of it without changing
//! anything.
#![tactic(auto)]

pub mod advice;
pub mod facts;
pub mod look;
pub mod tail;
pub mod warning;
