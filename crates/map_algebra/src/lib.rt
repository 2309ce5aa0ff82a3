//! Operations on maps by position: changed, two in one or compared; and lists of the blocks of the output.
#![tactic(auto)]

pub mod block_laws;
pub mod blocks;
pub mod change;
pub mod combine;
pub mod compare;
pub mod create;
pub mod laws;
pub mod listing;
pub mod numbers;
pub mod shape;
