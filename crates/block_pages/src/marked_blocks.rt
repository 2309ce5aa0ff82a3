//! The blocks that a mark puts in the place of others.
ghost use Rattle.std.specs.Prelude.{◌≡◌, ◌+◌, ◌<◌, ◌≤◌, ◌^◌, [], ◌∷◌, ◌++◌, length, slice_get, slice_range, count_by, Some, option_to_list};
ghost use Rattle.std.specs.List.{flat_map};
ghost use Rattle.block_list.specs.declared.status.Status.{Status};
ghost use Rattle.block_list.specs.Status.{same};
ghost use Rattle.block_list.specs.Stretches.{covered};
ghost use Rattle.block_pages.specs.Tally.{tallied};

use crate::block_slot::Slot;
use crate::status_counts::StatusCounts;
use arrayvec::ArrayVec;
use block_list::block::Block;
use std::marker::Model;

/// At most three blocks: what is left before a mark, the mark, and what is left after it.
#[derive(Drop)]
pub struct MarkedBlocks {
    slots: ArrayVec<Slot, 3>,
}

impl Model for MarkedBlocks {
    ghost use Rattle.std.specs.Prelude.{◌≤◌, List, length, map};
    ghost use Rattle.block_list.specs.declared.block.Block.{Block as Shown};

    ghost Value = { List Shown };

    ghost view = { λ p. map (λ s. s.block) p.slots.items };

    ghost invariant = { λ p. length p.slots.items ≤ 3 };
}

impl MarkedBlocks {
    /// No block.
    pub fn new() -> MarkedBlocks
        ensures { result ≡ [] }
    {
        MarkedBlocks {
            slots: ArrayVec::new(),
        }
    }

    /// The number of blocks.
    pub fn len(&self) -> usize
        ensures value { result ≡ length self.now }
        ensures fits { result ≤ 3 }
    {
        self.slots.len()
    }

    /// The block with an index.
    pub fn block(&self, i: usize) -> Block
        requires { i < length self.now }
        ensures { slice_get self.now i ≡ Some result }
    {
        self.slots[i].block
    }

    /// How many positions of its blocks have each status.
    pub fn tally(&self) -> StatusCounts
        requires { length (flat_map covered self.now) < 2 ^ 63 }
        ensures { (s : Status) → tallied result s ≡ count_by (λ z. same z s) (flat_map covered self.now) }
    {
        let mut tally = StatusCounts::none();
        for i in 0..self.len() {
            let block = self.block(i);
            tally.add(block.status, block.size);
        }
        tally
    }

    /// The blocks from one index up to another.
    pub fn part(&self, from: usize, to: usize) -> MarkedBlocks
        requires order { from ≤ to }
        requires within { to ≤ length self.now }
        requires fits { to ≤ from + 3 }
        ensures { result ≡ slice_range self.now from to }
    {
        let mut part = MarkedBlocks::new();
        for i in from..to {
            part.push(self.block(i));
        }
        part
    }

    /// Puts a block after the last one.
    pub fn push(&mut self, block: Block)
        requires { length self.old < 3 }
        ensures { self.new ≡ self.old ++ block ∷ [] }
    {
        self.slots.push(Slot { block });
    }

    /// Puts a block, if there is one, after the last one.
    pub fn push_some(&mut self, block: Option<Block>)
        requires { length self.old < 3 }
        ensures { self.new ≡ self.old ++ option_to_list block }
    {
        if let Some(block) = block {
            self.push(block);
        }
    }
}
