//! Searches in the tree: they pass over entries, and look into few pages.

pub mod by_position;
pub mod by_status;
pub mod near;
