//! A page of a map: at most 64 blocks, and its entry, which tells of them without a look.
//!
//!     page         block      0       1         2          3
//!                  begin      0       512       4096       8192
//!                  status     +       -         +          ?           end  9728
//!                             |_______|_________|__________|____________|
//!                  a block ends where the next one begins, and the last one at the page's end
//!     page_entry   page 5     begin 0     4 blocks     + 4608     - 3584     ? 1536
//!
//!     marked_blocks     one to three blocks that a mark puts in the place of others (`splice`)
//!     moved_blocks      up to 192 blocks on their way to other pages
//!     page_from_list    a plain list is cut into pages of at most 64 blocks
//!     steps             a search counts each look at a block
#![tactic(auto)]

mod binary_search;
mod block_slot;
pub mod marked_blocks;
pub mod moved_blocks;
pub mod page;
pub mod page_entry;
pub mod page_from_list;
pub mod status_counts;
pub mod steps;
