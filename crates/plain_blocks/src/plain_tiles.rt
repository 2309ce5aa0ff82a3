//! The map as a plain list of merged blocks.
ghost use Rattle.std.specs.Prelude.{◌≡◌, ◌+◌, ◌<◌, ◌^◌, ◌++◌, ◌⊎◌, [], length, replicate, None, OnOk, OnErr, IsOk, IfOk, MatchOption};
ghost use Rattle.plain_blocks.specs.Push.{push_fault, EndsWith};

use crate::block_row::BlockRow;
use crate::{edits, lookups};
use block_list::block::{Block, Range};
use block_list::near::Near;
use block_list::status::Status;
use block_list::tiles::{NoMemory, Tiles};
use std::alloc::Global;
use std::marker::Model;

/// Why a block can't be put after a map. `at` is the map's end.
#[derive(Clone, Copy, Debug, PartialEq, Eq)]
pub enum PushError {
    /// The block's end is 2^63 or more.
    TooLarge,
    /// The block begins before the map's end.
    Overlap { at: u64 },
    /// The block begins past the map's end.
    Gap { at: u64 },
    /// There wasn't enough memory.
    NoMemory,
}

impl From<NoMemory> for PushError {
    ghost use Rattle.std.specs.Prelude.{◌≡◌};
    ghost use Rattle.plain_blocks.specs.declared.plain_tiles.PushError.TheVariants.{NoMemory as OutOfMemory};

    ghost from_gives = { λ _ e. e ≡ OutOfMemory };

    fn from(_error: NoMemory) -> PushError {
        PushError::NoMemory
    }
}

/// A map as one row of merged blocks, 9 bytes each.
#[derive(Drop)]
pub struct PlainTiles {
    blocks: BlockRow,
    end: u64,
}

impl Model for PlainTiles {
    ghost use Rattle.std.specs.List.{flat_map};
    ghost use Rattle.block_list.specs.Tiled.{Tiled};

    ghost Value = { Tiled };

    ghost use Rattle.block_list.specs.Stretches.{covered};
    ghost use Rattle.plain_blocks.specs.Tiling.{IsTiling};

    ghost view = { λ t.
        record { statuses = flat_map covered t.blocks.items; spare = t.blocks.spare } };

    ghost invariant = { IsTiling };
}

impl PlainTiles {
    /// A map of no position. It takes memory with `reserve` and `push` alone.
    pub fn new(alloc: Global) -> PlainTiles
        ensures { result.statuses ≡ [] }
    {
        PlainTiles {
            blocks: BlockRow::new(alloc),
            end: 0,
        }
    }

    /// Puts a block after the last position. It takes memory only for one that isn't empty and doesn't join the last.
    pub fn push(&mut self, block: Block) -> Result<(), PushError>
        ensures ok { OnOk result (self.new.statuses ≡ self.old.statuses ++ replicate block.size block.status) }
        ensures err { OnErr result (self.new.statuses ≡ self.old.statuses) }
        ensures answer { MatchOption (push_fault block.pos block.size (length self.old.statuses))
            (IsOk result ⊎ (result ≡ Err PushError.NoMemory)) (λ e. result ≡ Err e) }
        ensures joins { push_fault block.pos block.size (length self.old.statuses) ≡ None
            → (block.size ≡ 0) ⊎ EndsWith self.old.statuses block.status → IsOk result }
    {
        let end = end_after(self.end, block)?;
        if block.size > 0 {
            edits::append(&mut self.blocks, block)?;
            self.end = end;
        }
        Ok(())
    }
}

/// The end of a map that ends at `end`, with a block after it.
fn end_after(end: u64, block: Block) -> Result<u64, PushError>
    ensures answer { MatchOption (push_fault block.pos block.size end) (IsOk result) (λ e. result ≡ Err e) }
    ensures begins { OnOk result (block.pos ≡ end) }
    ensures ends { IfOk result (λ after. after ≡ block.pos + block.size) }
    ensures short { IfOk result (λ after. after < 2 ^ 63) }
{
    let after = block
        .pos
        .checked_add(block.size)
        .ok_or(PushError::TooLarge)?;
    if after >= 1 << 63 {
        Err(PushError::TooLarge)
    } else if block.pos < end {
        Err(PushError::Overlap { at: end })
    } else if end < block.pos {
        Err(PushError::Gap { at: end })
    } else {
        Ok(after)
    }
}

impl Tiles for PlainTiles {
    ghost statuses = { λ t. t.statuses };

    ghost spare = { λ t. t.spare };

    fn end(&self) -> u64 {
        self.end
    }

    fn at(&self, x: u64) -> Status {
        self.stretch_at(x).status
    }

    fn stretch_at(&self, x: u64) -> Block {
        let after = self.blocks.begun_before(x + 1);
        self.blocks.block(after - 1)
    }

    fn stretch_near(&self, near: &mut Near, x: u64) -> Block {
        let begun = lookups::begun_near(&self.blocks, near.block, x);
        near.block = begun - 1;
        self.blocks.block(begun - 1)
    }

    fn find_forward(&self, from: u64, status: Status) -> Option<Range> {
        if from < self.end {
            lookups::first_with(&self.blocks, from, status)
        } else {
            None
        }
    }

    fn find_backward(&self, before: u64, status: Status) -> Option<Range> {
        lookups::last_with(&self.blocks, before.min(self.end), status)
    }

    fn count(&self, status: Status) -> u64 {
        lookups::count(&self.blocks, status)
    }

    fn reserve(&mut self, n: usize) -> Result<(), NoMemory> {
        self.blocks.reserve(n)
    }

    fn set(&mut self, pos: u64, size: u64, status: Status) {
        edits::mark(&mut self.blocks, Block { pos, size, status });
    }

    fn extend_to(&mut self, end: u64) {
        if self.end < end {
            let added = Block {
                pos: self.end,
                size: end - self.end,
                status: Status::NonTried,
            };
            // There is room, so this takes no memory and succeeds.
            let _ = edits::append(&mut self.blocks, added);
            self.end = end;
        }
    }

    fn blocks(&self) -> usize {
        self.blocks.len()
    }

    fn block(&self, i: usize) -> Block {
        self.blocks.block(i)
    }
}
