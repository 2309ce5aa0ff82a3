//! The rules of fill mode and of generate mode: sweeps over a map, piece by piece, and what they promise.
#![tactic(auto)]

pub mod laws;
