//! A rescue: its maps, its files, and the run of all phases. And the rescue of a sample, with its one line.
#![tactic(auto)]

pub mod ready;
pub mod rescue;
pub mod run;
pub mod sample;
