//! A block's place in a list of fixed length.

use block_list::block::Block;
use block_list::status::Status;

/// A block's place in a list of blocks on their way. An unused one has a block of no position.
#[derive(Clone, Copy, Debug)]
pub struct Slot {
    pub block: Block,
}

impl Default for Slot {
    fn default() -> Slot {
        Slot {
            block: Block {
                pos: 0,
                size: 0,
                status: Status::NonTried,
            },
        }
    }
}
