//! Which file a name reaches, and the folder that holds a name.
#![tactic(auto)]

pub mod identity;
pub mod names;
