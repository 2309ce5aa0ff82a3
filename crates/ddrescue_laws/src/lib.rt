//! Laws over the promise of ddrescue: what follows of it for each task.
#![tactic(auto)]

pub mod laws;
