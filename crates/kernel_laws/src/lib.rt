//! What a stop of the kernel leaves is among what the model of a disk says of a site's calls.
#![tactic(auto)]

pub mod laws;
