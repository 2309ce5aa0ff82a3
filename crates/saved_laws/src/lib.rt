//! The converse of crash safety: what was read and saved is called finished, and only what failed is called bad.
#![tactic(auto)]

pub mod laws;
