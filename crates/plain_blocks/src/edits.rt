//! Edits of a list of blocks that tiles a map from 0 on.
ghost use Rattle.std.specs.Prelude.{◌≡◌, ◌+◌, ◌-◌, ◌<◌, ◌≤◌, ◌^◌, ◌++◌, ◌∷◌, length, take, drop, OnOk, OnErr, IsOk};
ghost use Rattle.std.specs.List.{flat_map};
ghost use Rattle.block_list.specs.Map.{marked};
ghost use Rattle.block_list.specs.Stretches.{covered};
ghost use Rattle.block_list.specs.Tiling.{IsMerged};
ghost use Rattle.plain_blocks.specs.Push.{EndsWith};
ghost use Rattle.block_list.specs.Edits.{IsTiled, IsPlace, IsBlockCut, IsJoinedBefore, IsJoinedAfter, start_of};

use crate::block_row::BlockRow;
use block_list::block::Block;
use block_list::status::Status;
use block_list::tiles::NoMemory;

/// Gives a status to the positions of a block.
pub fn mark(blocks: &mut BlockRow, block: Block)
    requires tiled { IsTiled blocks.old.items }
    requires merged { IsMerged blocks.old.items }
    requires some { 0 < block.size }
    requires within { block.pos + block.size ≤ length (flat_map covered blocks.old.items) }
    requires room { 2 ≤ blocks.old.spare }
    ensures tiled { IsTiled blocks.new.items }
    ensures merged { IsMerged blocks.new.items }
    ensures marked { flat_map covered blocks.new.items
        ≡ marked (flat_map covered blocks.old.items) block.pos block.size block.status }
    ensures spare { blocks.old.spare ≤ blocks.new.spare + 2 }
{
    let i = blocks.begun_before(block.pos);
    let end = block.pos + block.size;
    if 0 < i && i < blocks.len() {
        let front = blocks.block(i - 1);
        let back = blocks.block(i);
        if back.pos == block.pos && end < back.pos + back.size && front.status.is(block.status) {
            return blocks.shift(i, end);
        }
        if back.pos == end && back.status.is(block.status) {
            return blocks.shift(i, block.pos);
        }
    }
    overwrite(blocks, i, block.pos, block.size, block.status);
}

/// Adds a block after the last one. It takes memory only if the two don't join.
pub fn append(blocks: &mut BlockRow, block: Block) -> Result<(), NoMemory>
    requires tiled { IsTiled blocks.old.items }
    requires merged { IsMerged blocks.old.items }
    requires some { 0 < block.size }
    requires after { length (flat_map covered blocks.old.items) ≡ block.pos }
    requires short { block.pos + block.size < 2 ^ 63 }
    ensures tiled { IsTiled blocks.new.items }
    ensures merged { IsMerged blocks.new.items }
    ensures added { OnOk result (flat_map covered blocks.new.items
        ≡ flat_map covered blocks.old.items ++ covered block) }
    ensures kept { OnErr result (blocks.new.items ≡ blocks.old.items) }
    ensures full { 1 ≤ blocks.old.spare → IsOk result }
    ensures joins { EndsWith (flat_map covered blocks.old.items) block.status → IsOk result }
    ensures spare { blocks.old.spare ≤ blocks.new.spare + 1 }
{
    let (i, wide) = join_before(blocks, blocks.len(), block);
    blocks.truncate(i);
    blocks.push(wide)
}

/// Gives a status to the positions from `pos` up to `pos + size`, before which i blocks begin.
#[inline(never)]
fn overwrite(blocks: &mut BlockRow, i: usize, pos: u64, size: u64, status: Status)
    requires tiled { IsTiled blocks.old.items }
    requires merged { IsMerged blocks.old.items }
    requires place { IsPlace blocks.old.items pos i }
    requires some { 0 < size }
    requires within { pos + size ≤ length (flat_map covered blocks.old.items) }
    requires room { 2 ≤ blocks.old.spare }
    ensures tiled { IsTiled blocks.new.items }
    ensures merged { IsMerged blocks.new.items }
    ensures marked { flat_map covered blocks.new.items ≡ marked (flat_map covered blocks.old.items) pos size status }
    ensures spare { blocks.old.spare ≤ blocks.new.spare + 2 }
{
    let end = pos + size;
    cut(blocks, i, pos);
    let j = blocks.begun_before(end);
    cut(blocks, j, end);
    replace(blocks, i, j, Block { pos, size, status });
}

/// Makes a block begin at a position, before which i blocks begin, unless it is the end.
fn cut(blocks: &mut BlockRow, i: usize, at: u64)
    requires tiled { IsTiled blocks.old.items }
    requires place { IsPlace blocks.old.items at i }
    requires room { 1 ≤ blocks.old.spare }
    ensures cut { IsBlockCut blocks.old.items blocks.new.items at i }
    ensures spare { blocks.old.spare ≤ blocks.new.spare + 1 }
{
    if i > 0 {
        let block = blocks.block(i - 1);
        if at < block.pos + block.size {
            blocks.divide(i - 1, block, at);
        }
    }
}

/// Puts one block in the place of those from i up to j, joined with neighbors of its status.
fn replace(blocks: &mut BlockRow, i: usize, j: usize, block: Block)
    requires tiled { IsTiled blocks.old.items }
    requires front { IsMerged (take i blocks.old.items) }
    requires back { IsMerged (drop j blocks.old.items) }
    requires order { i < j }
    requires index { j ≤ length blocks.old.items }
    requires starts { start_of blocks.old.items i ≡ block.pos }
    requires ends { start_of blocks.old.items j ≡ block.pos + block.size }
    requires some { 0 < block.size }
    ensures tiled { IsTiled blocks.new.items }
    ensures merged { IsMerged blocks.new.items }
    ensures marked { flat_map covered blocks.new.items
        ≡ marked (flat_map covered blocks.old.items) block.pos block.size block.status }
    ensures spare { blocks.old.spare ≤ blocks.new.spare }
{
    let (low, wide) = join_before(blocks, i, block);
    let (high, whole) = join_after(blocks, j, wide);
    blocks.fuse(low, high, whole);
}

/// A block, widened over the one before it if that has its status, and the index of its first part.
fn join_before(blocks: &BlockRow, i: usize, block: Block) -> (usize, Block)
    requires tiled { IsTiled blocks.now.items }
    requires index { i ≤ length blocks.now.items }
    requires starts { start_of blocks.now.items i ≡ block.pos }
    requires short { block.pos + block.size < 2 ^ 63 }
    ensures { IsJoinedBefore blocks.now.items i block result.0 result.1 }
{
    if i > 0 {
        let before = blocks.block(i - 1);
        if before.status.is(block.status) {
            let wide = Block {
                pos: before.pos,
                size: before.size + block.size,
                status: block.status,
            };
            return (i - 1, wide);
        }
    }
    (i, block)
}

/// A block, widened over the one after it if that has its status, and the index after its last part.
fn join_after(blocks: &BlockRow, j: usize, block: Block) -> (usize, Block)
    requires tiled { IsTiled blocks.now.items }
    requires index { j ≤ length blocks.now.items }
    requires ends { start_of blocks.now.items j ≡ block.pos + block.size }
    ensures { IsJoinedAfter blocks.now.items j block result.0 result.1 }
{
    if j < blocks.len() {
        let after = blocks.block(j);
        if after.status.is(block.status) {
            let wide = Block {
                pos: block.pos,
                size: block.size + after.size,
                status: block.status,
            };
            return (j + 1, wide);
        }
    }
    (j, block)
}
