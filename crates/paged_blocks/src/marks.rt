//! Marks in the tree: what goes and comes, and the pages that change.

pub mod edit;
pub mod overwrite;
pub mod refill;
pub mod touched_pages;
