//! Blocks that follow one another, in 9 bytes each.
ghost use Rattle.std.specs.Prelude.{◌≡◌, ◌+◌, ◌-◌, ◌<◌, ◌≤◌, ◌^◌, ◌++◌, [], ◌∷◌, length, take, drop, slice_index_or, vec_len, vec_capacity, is_ok, if◌then◌else◌, IsOk, OnOk};
ghost use Rattle.std.specs.List.{flat_map};
ghost use Rattle.block_list.specs.Stretches.{covered, back_of};
ghost use Rattle.block_list.specs.Edits.{IsTiled, IsPlace, IsShifted, start_of, front_of, cut_at};

use block_list::block::Block;
use block_list::status::Status;
use block_list::tiles::NoMemory;
use std::alloc::Global;
use std::marker::Model;

/// Blocks from 0 on, each where the one before ends. So of each its end and its status are kept.
#[derive(Drop)]
pub struct BlockRow {
    ends: Vec<u64>,
    statuses: Vec<Status>,
}

impl Model for BlockRow {
    ghost use Rattle.plain_blocks.specs.Row.{Lined, row_of, IsRow};

    ghost Value = { Lined };

    ghost view = { row_of };

    ghost invariant = { IsRow };
}

/// Puts one value in the place of those from i up to j.
fn fuse_values<T: Drop>(values: &mut Vec<T>, i: usize, j: usize, value: T)
    requires order { i < j }
    requires within { j ≤ length values.old.items }
    ensures items { values.new.items ≡ take i values.old.items ++ value ∷ drop j values.old.items }
    ensures len { vec_len values.new ≤ vec_len values.old }
    ensures capacity { vec_capacity values.new ≡ vec_capacity values.old }
{
    values[i] = value;
    values.drain(i + 1..j);
}

impl BlockRow {
    /// A row of no block. It takes memory with `reserve` and `push` alone.
    pub fn new(alloc: Global) -> BlockRow
        ensures { result.items ≡ [] }
    {
        BlockRow {
            ends: Vec::new(alloc),
            statuses: Vec::new(alloc),
        }
    }

    /// The number of blocks.
    pub fn len(&self) -> usize
        ensures { result ≡ length self.now.items }
    {
        self.ends.len()
    }

    /// Where the block with an index begins.
    pub fn start(&self, i: usize) -> u64
        requires { i < length self.now.items }
        ensures { (d : Block) → result ≡ (slice_index_or self.now.items i d).pos }
    {
        if i > 0 { self.ends[i - 1] } else { 0 }
    }

    /// Where the block with an index ends.
    pub fn end_of(&self, i: usize) -> u64
        requires tiled { IsTiled self.now.items }
        requires index { i < length self.now.items }
        ensures { result ≡ start_of self.now.items (i + 1) }
    {
        self.ends[i]
    }

    /// The block with an index.
    pub fn block(&self, i: usize) -> Block
        requires { i < length self.now.items }
        ensures { result ≡ slice_index_or self.now.items i result }
    {
        let pos = self.start(i);
        Block {
            pos,
            size: self.ends[i].saturating_sub(pos),
            status: self.statuses[i],
        }
    }

    /// How many blocks begin before a position.
    pub fn begun_before(&self, at: u64) -> usize
        requires tiled { IsTiled self.now.items }
        requires within { at ≤ length (flat_map covered self.now.items) }
        ensures { IsPlace self.now.items at result }
    {
        // A run that goes up the first time is at the last two blocks.
        let len = self.len();
        if len > 1 {
            if self.start(len - 1) < at {
                return len;
            }
            if self.start(len - 2) < at {
                return len - 1;
            }
        }
        if at == 0 {
            return 0;
        }
        self.ends.partition_point(|end| *end < at) + 1
    }

    /// Makes spare at least n.
    #[inline(always)]
    pub fn reserve(&mut self, n: usize) -> Result<(), NoMemory>
        ensures spare { OnOk result (n ≤ self.new.spare) }
        ensures full { n ≤ self.old.spare → IsOk result }
        ensures kept { self.old.spare ≤ self.new.spare }
        ensures items { self.new.items ≡ self.old.items }
    {
        let capacity = self.ends.capacity().min(self.statuses.capacity());
        if n <= capacity.saturating_sub(self.ends.len()) {
            return Ok(());
        }
        self.grow(n)
    }

    /// Asks for memory for n more blocks.
    #[inline(never)]
    fn grow(&mut self, n: usize) -> Result<(), NoMemory>
        ensures spare { OnOk result (n ≤ self.new.spare) }
        ensures kept { self.old.spare ≤ self.new.spare }
        ensures items { self.new.items ≡ self.old.items }
    {
        self.ends.reserve(n)?;
        Ok(self.statuses.reserve(n)?)
    }

    /// Keeps the first i blocks.
    pub fn truncate(&mut self, i: usize)
        ensures items { self.new.items ≡ take i self.old.items }
        ensures room { i < length self.old.items → 1 ≤ self.new.spare }
        ensures spare { self.old.spare ≤ self.new.spare }
    {
        self.ends.truncate(i);
        self.statuses.truncate(i);
    }

    /// Puts a block after the last one.
    pub fn push(&mut self, block: Block) -> Result<(), NoMemory>
        requires tiled { IsTiled self.old.items }
        requires starts { length (flat_map covered self.old.items) ≡ block.pos }
        requires short { block.pos + block.size < 2 ^ 63 }
        ensures items { self.new.items ≡ (if is_ok result then self.old.items ++ block ∷ [] else self.old.items) }
        ensures full { 1 ≤ self.old.spare → IsOk result }
        ensures spare { self.old.spare ≤ self.new.spare + 1 }
    {
        self.reserve(1)?;
        self.ends.push_reserved(block.pos + block.size);
        self.statuses.push_reserved(block.status);
        Ok(())
    }

    /// Moves the boundary before the block at i to a position inside that block or the one before it.
    pub fn shift(&mut self, i: usize, at: u64)
        requires tiled { IsTiled self.old.items }
        requires some { 0 < i }
        requires index { i < length self.old.items }
        requires inner { start_of self.old.items (i - 1) < at }
        requires reaches { at < start_of self.old.items (i + 1) }
        ensures shifted { IsShifted self.old.items self.new.items i at }
        ensures spare { self.old.spare ≤ self.new.spare }
    {
        self.ends[i - 1] = at;
    }

    /// Puts two blocks in the place of one that a position divides.
    pub fn divide(&mut self, i: usize, block: Block, at: u64)
        requires index { i < length self.old.items }
        requires there { block ≡ slice_index_or self.old.items i block }
        requires room { 1 ≤ self.old.spare }
        requires inner { block.pos < at }
        requires reaches { at < block.pos + block.size }
        ensures items { self.new.items ≡ cut_at self.old.items i (front_of block at) (back_of block at) }
        ensures spare { self.old.spare ≤ self.new.spare + 1 }
    {
        // There is room, so both take no memory and succeed.
        let _ = self.ends.insert(i, at);
        let _ = self.statuses.insert(i, block.status);
    }

    /// Puts one block in the place of those from i up to j.
    pub fn fuse(&mut self, i: usize, j: usize, block: Block)
        requires tiled { IsTiled self.old.items }
        requires order { i < j }
        requires within { j ≤ length self.old.items }
        requires starts { start_of self.old.items i ≡ block.pos }
        requires ends { start_of self.old.items j ≡ block.pos + block.size }
        ensures items { self.new.items ≡ take i self.old.items ++ block ∷ drop j self.old.items }
        ensures spare { self.old.spare ≤ self.new.spare }
    {
        fuse_values(&mut self.ends, i, j, block.pos + block.size);
        fuse_values(&mut self.statuses, i, j, block.status);
    }
}
