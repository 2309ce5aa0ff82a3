//! Where a list of blocks that tiles a map from 0 on has a status.
ghost use Rattle.std.specs.Prelude.{◌≡◌, ℕ, ◌+◌, ◌<◌, ◌≤◌, length, IfSome, IfNone, count_by};
ghost use Rattle.std.specs.List.{flat_map};
ghost use Rattle.block_list.specs.Status.{same};
ghost use Rattle.block_list.specs.Map.{Has};
ghost use Rattle.block_list.specs.Places.{IsFirst, IsLast, IsRangeUp, IsRangeDown};
ghost use Rattle.block_list.specs.Stretches.{covered};
ghost use Rattle.block_list.specs.Tiling.{IsMerged};
ghost use Rattle.block_list.specs.Edits.{IsTiled, IsPlace};

use crate::block_row::BlockRow;
use block_list::block::Range;
use block_list::status::Status;

/// How many blocks begin at or before a position. It looks first at the block with the index `near` and at the one
/// after it.
pub fn begun_near(blocks: &BlockRow, near: usize, x: u64) -> usize
    requires tiled { IsTiled blocks.now.items }
    requires within { x < length (flat_map covered blocks.now.items) }
    ensures { IsPlace blocks.now.items (x + 1) result }
{
    if near < blocks.len() && blocks.start(near) <= x {
        if x < blocks.end_of(near) {
            return near + 1;
        }
        if near + 1 < blocks.len() && x < blocks.end_of(near + 1) {
            return near + 2;
        }
    }
    blocks.begun_before(x + 1)
}

/// The first position at or after `from` that has a status, and the end of its block.
pub fn first_with(blocks: &BlockRow, from: u64, status: Status) -> Option<Range>
    requires tiled { IsTiled blocks.now.items }
    requires merged { IsMerged blocks.now.items }
    requires within { from < length (flat_map covered blocks.now.items) }
    ensures first { IfSome result (λ range. IsFirst (Has (flat_map covered blocks.now.items) status) from range.from) }
    ensures range { IfSome result (λ range.
        IsRangeUp (Has (flat_map covered blocks.now.items) status) range.from range.to) }
    ensures none { IfNone result ((x : ℕ) → from ≤ x → Has (flat_map covered blocks.now.items) status x → ⊥) }
{
    let holding = blocks.begun_before(from + 1) - 1;
    for i in holding..blocks.len() {
        let block = blocks.block(i);
        if block.status.is(status) {
            return Some(Range {
                from: from.max(block.pos),
                to: block.pos + block.size,
            });
        }
    }
    None
}

/// The greatest end at or before `before` below which a position has a status, and the start of its block.
pub fn last_with(blocks: &BlockRow, before: u64, status: Status) -> Option<Range>
    requires tiled { IsTiled blocks.now.items }
    requires merged { IsMerged blocks.now.items }
    requires within { before ≤ length (flat_map covered blocks.now.items) }
    ensures last { IfSome result (λ range. IsLast (Has (flat_map covered blocks.now.items) status) before range.to) }
    ensures range { IfSome result (λ range.
        IsRangeDown (Has (flat_map covered blocks.now.items) status) range.from range.to) }
    ensures none { IfNone result ((x : ℕ) → x < before → Has (flat_map covered blocks.now.items) status x → ⊥) }
{
    let begun = blocks.begun_before(before);
    for i in (0..begun).rev() {
        let block = blocks.block(i);
        if block.status.is(status) {
            return Some(Range {
                from: block.pos,
                to: before.min(block.pos + block.size),
            });
        }
    }
    None
}

/// How many positions have a status.
pub fn count(blocks: &BlockRow, status: Status) -> u64
    requires { IsTiled blocks.now.items }
    ensures { result ≡ count_by (λ s. same s status) (flat_map covered blocks.now.items) }
{
    let mut counted = 0;
    for i in 0..blocks.len() {
        let block = blocks.block(i);
        if block.status.is(status) {
            counted += block.size;
        }
    }
    counted
}
