//! The map of a rescue as a plain list of merged blocks.
#![tactic(auto)]

mod block_row;
mod edits;
mod lookups;
pub mod plain_tiles;
