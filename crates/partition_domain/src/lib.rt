//! The partitions of a disk: the records of its partition table, the search for one partition by its number, and the
//! map of a partition, which a rescue takes as its domain.
#![tactic(auto)]

pub mod chain;
pub mod domain;
pub mod find;
pub mod laws;
mod read;
pub mod stop;
pub mod table;
