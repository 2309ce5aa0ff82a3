//! The map of a rescue: a plain list while it has few blocks, and then a tree of two levels.
//!
//!     paged_tiles      up to 120 blocks: a plain list, searched by short_list
//!         |
//!     page_tree        more blocks
//!         |
//!     entry_list       | page 5, 61 blocks | page 2, 40 blocks | page 0, 64 blocks | ..     free: pages 1, 3
//!                           |                   |                   |
//!     block_pages       + - + ? - ..        ? - + - ..          - + - ? ..
//!
//!     search    passes over entries, and reads the blocks of the page that has what it looks for
//!     marks     change one page or two in place, or fill the pages that they touch anew
//!     counts    add up what the entries say
//!     room      has free pages ready for the blocks that may come
#![tactic(auto)]

mod counts;
mod entry_list;
mod marks;
mod page_tree;
pub mod paged_tiles;
mod room;
mod search;
mod short_list;
pub mod steps;
