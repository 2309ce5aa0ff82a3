//! A page of blocks.
ghost use Rattle.std.specs.Prelude.{◌≡◌, ◌+◌, ◌-◌, ◌<◌, ◌≤◌, [], ◌∷◌, ◌++◌, length, drop, slice_get, slice_range, slice_index_or, Some, IfSome, IfNone};
ghost use Rattle.std.specs.List.Sorted.{IsNonDecreasingBy};
ghost use Rattle.block_list.specs.declared.block.Block.{Block};
ghost use Rattle.block_pages.specs.Splice.{spliced};
ghost use Rattle.block_pages.specs.Rows.{AreRow, first_or};
ghost use Rattle.block_pages.specs.Search.{IsSearched, HasNoneOf, HasAt, IsFirstBlock, IsLastBlock};

use crate::binary_search::{Positioned, last_before};
use crate::marked_blocks::MarkedBlocks;
use crate::steps::Steps;
use arrayvec::ArrayVec;
use block_list::block::Block;
use block_list::status::Status;
use std::marker::Model;
use std::sync::ledger::Ledger;

/// The status of a block.
#[derive(Clone, Copy, Debug)]
struct KeptStatus {
    status: Status,
}

impl Default for KeptStatus {
    fn default() -> KeptStatus {
        KeptStatus {
            status: Status::NonTried,
        }
    }
}

impl Positioned for u64 {
    ghost begin = { λ x. x };

    fn pos(&self) -> u64 {
        *self
    }
}

/// At most 64 blocks, in the order of their positions. Each goes on up to the next, so of a block its begin and its
/// status are kept, and of the last one its end.
#[derive(Drop)]
pub struct Page {
    starts: ArrayVec<u64, 64>,
    statuses: ArrayVec<KeptStatus, 64>,
    end: u64,
}

impl Model for Page {
    ghost use Rattle.std.specs.Prelude.{List};
    ghost use Rattle.block_list.specs.declared.block.Block.{Block as Shown};
    ghost use Rattle.block_pages.specs.Rows.{rows_of, IsPage};

    ghost Value = { List Shown };

    ghost view = { rows_of };

    ghost invariant = { IsPage };
}

/// Where the block with an index ends.
fn end_of(starts: &[u64], end: u64, i: usize) -> u64
    requires { i < length starts.now }
    ensures { result ≡ first_or (drop (i + 1) starts.now) end }
{
    if i + 1 < starts.len() {
        return starts[i + 1];
    }
    end
}

impl Page {
    /// A page without blocks.
    pub fn new() -> Page
        ensures { result ≡ [] }
    {
        Page {
            starts: ArrayVec::new(),
            statuses: ArrayVec::new(),
            end: 0,
        }
    }

    /// The number of blocks.
    pub fn len(&self) -> usize
        ensures value { result ≡ length self.now }
        ensures fits { result ≤ 64 }
    {
        self.starts.len()
    }

    /// The block with an index.
    pub fn block(&self, i: usize) -> Block
        requires { i < length self.now }
        ensures { slice_get self.now i ≡ Some result }
    {
        let pos = self.starts[i];
        let end = end_of(&self.starts, self.end, i);
        Block {
            pos,
            size: end.saturating_sub(pos),
            status: self.statuses[i].status,
        }
    }

    /// The status of the block with an index.
    fn status(&self, i: usize) -> Status
        requires { i < length self.now }
        ensures { (d : Block) → result ≡ (slice_index_or self.now i d).status }
    {
        self.statuses[i].status
    }

    /// How many blocks begin before a position, as the first one must.
    pub fn before<L: Ledger>(&self, at: u64, steps: &mut Steps<L>) -> usize
        requires sorted { IsNonDecreasingBy (λ (b : Block). b.pos) self.now }
        requires some { 0 < length self.now }
        requires first { (d : Block) → (slice_index_or self.now 0 d).pos < at }
        ensures place { IsSearched (λ (b : Block). b.pos) self.now at result }
        ensures cost { steps.new ≤ steps.old + 6 }
    {
        last_before(&self.starts, at, steps) + 1
    }

    /// The first block from an index on that has a status.
    pub fn first_from<L: Ledger>(
        &self,
        from: usize,
        status: Status,
        steps: &mut Steps<L>,
    ) -> Option<Block>
        requires { from ≤ length self.now }
        ensures found { IfSome result (λ b. IsFirstBlock self.now status from b) }
        ensures none { IfNone result (HasNoneOf self.now status from (length self.now)) }
        ensures cost { steps.new ≤ steps.old + (length self.now - from) + 1 }
        ensures passed { IfNone result (steps.new ≤ steps.old + (length self.now - from)) }
        ensures there { HasAt self.now status from → steps.new ≤ steps.old + 2 }
    {
        for i in from..self.len() {
            steps.tick();
            if self.status(i).is(status) {
                // Its end is where the next one begins: one more look.
                steps.tick();
                return Some(self.block(i));
            }
        }
        None
    }

    /// The last of the first blocks that has a status.
    pub fn last_below<L: Ledger>(
        &self,
        below: usize,
        status: Status,
        steps: &mut Steps<L>,
    ) -> Option<Block>
        requires { below ≤ length self.now }
        ensures found { IfSome result (λ b. IsLastBlock self.now status below b) }
        ensures none { IfNone result (HasNoneOf self.now status 0 below) }
        ensures cost { steps.new ≤ steps.old + below + 1 }
        ensures passed { IfNone result (steps.new ≤ steps.old + below) }
        ensures there { HasAt self.now status (below - 1) → steps.new ≤ steps.old + 2 }
    {
        for i in (0..below).rev() {
            steps.tick();
            if self.status(i).is(status) {
                // Its end is where the next one begins: one more look.
                steps.tick();
                return Some(self.block(i));
            }
        }
        None
    }

    /// Puts a block after the last one.
    pub fn push(&mut self, block: Block)
        requires room { length self.old < 64 }
        requires row { AreRow (self.old ++ block ∷ []) }
        ensures { self.new ≡ self.old ++ block ∷ [] }
    {
        self.starts.push(block.pos);
        self.statuses.push(KeptStatus {
            status: block.status,
        });
        self.end = block.pos + block.size;
    }

    /// Puts the blocks of a page from one index up to another after the last one.
    fn copy(&mut self, page: &Page, from: usize, to: usize)
        requires order { from ≤ to }
        requires within { to ≤ length page.now }
        requires room { length self.old + (to - from) ≤ 64 }
        requires row { AreRow (self.old ++ slice_range page.now from to) }
        ensures copied { self.new ≡ self.old ++ slice_range page.now from to }
        ensures len { length self.new ≡ length self.old + (to - from) }
    {
        if from < to {
            // There is room, so both succeed.
            let _ = self.starts.try_extend_from_slice(&page.starts[from..to]);
            let _ = self
                .statuses
                .try_extend_from_slice(&page.statuses[from..to]);
            self.end = end_of(&page.starts, page.end, to - 1);
        }
    }

    /// Puts all blocks of a piece after the last one.
    fn add(&mut self, piece: &MarkedBlocks)
        requires room { length self.old + length piece.now ≤ 64 }
        requires row { AreRow (self.old ++ piece.now) }
        ensures { self.new ≡ self.old ++ piece.now }
    {
        for i in 0..piece.len() {
            self.push(piece.block(i));
        }
    }

    /// Puts blocks in the place of as many others, from an index on.
    fn overwrite(&mut self, from: usize, new: &MarkedBlocks)
        requires within { from + length new.now ≤ length self.old }
        requires row { AreRow (spliced self.old from (from + length new.now) new.now) }
        ensures { self.new ≡ spliced self.old from (from + length new.now) new.now }
    {
        for i in 0..new.len() {
            let block = new.block(i);
            self.starts[from + i] = block.pos;
            self.statuses[from + i] = KeptStatus {
                status: block.status,
            };
            if from + i + 1 == self.starts.len() {
                self.end = block.pos + block.size;
            }
        }
    }

    /// A page like it, with other blocks in the place of those from one index up to another.
    fn spliced(&self, from: usize, to: usize, new: &MarkedBlocks) -> Page
        requires order { from ≤ to }
        requires within { to ≤ length self.now }
        requires fits { length self.now + length new.now ≤ 64 + (to - from) }
        requires row { AreRow (spliced self.now from to new.now) }
        ensures { result ≡ spliced self.now from to new.now }
    {
        let len = self.len();
        let mut page = Page::new();
        page.copy(self, 0, from);
        page.add(new);
        page.copy(self, to, len);
        page
    }

    /// Puts blocks in the place of those from one index up to another. If as many come as go, no other is copied.
    pub fn splice(&mut self, from: usize, to: usize, new: &MarkedBlocks)
        requires order { from ≤ to }
        requires within { to ≤ length self.old }
        requires fits { length self.old + length new.now ≤ 64 + (to - from) }
        requires row { AreRow (spliced self.old from to new.now) }
        ensures { self.new ≡ spliced self.old from to new.now }
    {
        if new.len() == to - from {
            self.overwrite(from, new);
        } else {
            *self = self.spliced(from, to, new);
        }
    }
}
