//! Blocks on their way from pages to pages.
ghost use Rattle.std.specs.Prelude.{◌≡◌, ◌+◌, ◌-◌, ◌<◌, ◌≤◌, [], ◌∷◌, ◌++◌, length, slice_get, slice_range, Some};
ghost use Rattle.block_pages.specs.Rows.{AreRow};

use crate::block_slot::Slot;
use crate::marked_blocks::MarkedBlocks;
use crate::page::Page;
use arrayvec::ArrayVec;
use block_list::block::Block;
use std::marker::Model;

/// At most 192 blocks, as many as three pages hold.
#[derive(Drop)]
pub struct MovedBlocks {
    slots: ArrayVec<Slot, 192>,
}

impl Model for MovedBlocks {
    ghost use Rattle.std.specs.Prelude.{◌≤◌, List, length, map};
    ghost use Rattle.block_list.specs.declared.block.Block.{Block as Shown};

    ghost Value = { List Shown };

    ghost view = { λ p. map (λ s. s.block) p.slots.items };

    ghost invariant = { λ p. length p.slots.items ≤ 192 };
}

impl MovedBlocks {
    /// No block.
    pub fn new() -> MovedBlocks
        ensures { result ≡ [] }
    {
        MovedBlocks {
            slots: ArrayVec::new(),
        }
    }

    /// The number of blocks.
    pub fn len(&self) -> usize
        ensures value { result ≡ length self.now }
        ensures fits { result ≤ 192 }
    {
        self.slots.len()
    }

    /// The block with an index.
    fn block(&self, i: usize) -> Block
        requires { i < length self.now }
        ensures { slice_get self.now i ≡ Some result }
    {
        self.slots[i].block
    }

    /// Puts a block after the last one.
    pub fn push(&mut self, block: Block)
        requires { length self.old < 192 }
        ensures { self.new ≡ self.old ++ block ∷ [] }
    {
        self.slots.push(Slot { block });
    }

    /// Puts the blocks of a page from one index up to another after the last one.
    pub fn copy(&mut self, page: &Page, from: usize, to: usize)
        requires order { from ≤ to }
        requires within { to ≤ length page.now }
        requires room { length self.old + (to - from) ≤ 192 }
        ensures copied { self.new ≡ self.old ++ slice_range page.now from to }
        ensures len { length self.new ≡ length self.old + (to - from) }
    {
        for i in from..to {
            self.push(page.block(i));
        }
    }

    /// Puts all blocks of a piece after the last one.
    pub fn add(&mut self, piece: &MarkedBlocks)
        requires { length self.old + length piece.now ≤ 192 }
        ensures { self.new ≡ self.old ++ piece.now }
    {
        for i in 0..piece.len() {
            self.push(piece.block(i));
        }
    }

    /// Puts all blocks of others after the last one.
    pub fn append(&mut self, others: &MovedBlocks)
        requires { length self.old + length others.now ≤ 192 }
        ensures { self.new ≡ self.old ++ others.now }
    {
        for i in 0..others.len() {
            self.push(others.block(i));
        }
    }

    /// A page with the blocks from one index up to another.
    pub fn page(&self, from: usize, to: usize) -> Page
        requires order { from ≤ to }
        requires within { to ≤ length self.now }
        requires fits { to ≤ from + 64 }
        requires row { AreRow (slice_range self.now from to) }
        ensures { result ≡ slice_range self.now from to }
    {
        let mut page = Page::new();
        for i in from..to {
            page.push(self.block(i));
        }
        page
    }
}
