//! Searches in a plain list of a few blocks.
ghost use Rattle.std.specs.Prelude.{◌≡◌, ℕ, ◌+◌, ◌-◌, ◌<◌, ◌≤◌, ◌^◌, length, slice_get, Some, IfOk, IfSome, IfNone};
ghost use Rattle.block_list.specs.Map.{Has};
ghost use Rattle.block_list.specs.Places.{IsFirst, IsLast, IsRangeUp, IsRangeDown};
ghost use Rattle.block_list.specs.Stretches.{stretches};
ghost use Rattle.block_list.specs.Edits.{IsPlace, start_of};
ghost use Rattle.block_list.specs.declared.block.Block.{Block};
ghost use Rattle.paged_blocks.specs.Walks.{IsBare};

use crate::search::by_status::{range_down, range_up};
use block_list::block::Range;
use block_list::status::Status;
use block_list::tiles::{NoMemory, Tiles};
use block_pages::steps::Steps;
use plain_blocks::plain_tiles::PlainTiles;
use std::alloc::Global;
use std::sync::ledger::Ledger;

/// The most blocks that are few.
pub const FEW: usize = 120;

/// A plain list with the map of another.
pub fn copied(alloc: Global, tiles: &PlainTiles) -> Result<PlainTiles, NoMemory>
    ensures { IfOk result (λ t. t.statuses ≡ tiles.now.statuses) }
{
    let blocks = tiles.blocks();
    let mut copy = PlainTiles::new(alloc);
    copy.reserve(blocks)?;
    for i in 0..blocks {
        copy.push(tiles.block(i)).map_err(|_| NoMemory)?;
    }
    Ok(copy)
}

/// How many blocks begin before a position that the last one doesn't begin before. It looks at a middle one, and then
/// among half as many, till one is left.
#[inline(always)]
fn begun_in_front<L: Ledger>(tiles: &PlainTiles, at: u64, steps: &mut Steps<L>) -> usize
    requires few { length (stretches tiles.now.statuses) ≤ 120 }
    requires short { length tiles.now.statuses < 2 ^ 63 }
    requires some { 0 < at }
    requires front { at ≤ start_of (stretches tiles.now.statuses) (length (stretches tiles.now.statuses) - 1) }
    ensures place { IsPlace (stretches tiles.now.statuses) at result }
    ensures begun { 0 < result }
    ensures cost { steps.new ≤ steps.old + 7 }
{
    let mut last = 0;
    let mut end = tiles.blocks() - 1;
    while last + 1 < end {
        let middle = last + (end - last) / 2;
        steps.tick();
        if tiles.block(middle).pos < at {
            last = middle;
        } else {
            end = middle;
        }
    }
    last + 1
}

/// How many blocks begin before a position. It looks at the last one first.
#[inline(always)]
fn begun_before<L: Ledger>(tiles: &PlainTiles, at: u64, steps: &mut Steps<L>) -> usize
    requires few { length (stretches tiles.now.statuses) ≤ 120 }
    requires short { length tiles.now.statuses < 2 ^ 63 }
    requires some { 0 < at }
    requires within { at ≤ length tiles.now.statuses }
    ensures place { IsPlace (stretches tiles.now.statuses) at result }
    ensures begun { 0 < result }
    ensures cost { steps.new ≤ steps.old + 8 }
{
    let last = tiles.blocks() - 1;
    steps.tick();
    if tiles.block(last).pos < at {
        return last + 1;
    }
    begun_in_front(tiles, at, steps)
}

/// The index of the first block with a status that ends past a position, if the last one begins past it; without one
/// the number of blocks.
#[inline(never)]
fn first_from<L: Ledger>(
    tiles: &PlainTiles,
    from: u64,
    status: Status,
    steps: &mut Steps<L>,
) -> usize
    requires few { length (stretches tiles.now.statuses) ≤ 120 }
    requires short { length tiles.now.statuses < 2 ^ 63 }
    requires front { from < start_of (stretches tiles.now.statuses) (length (stretches tiles.now.statuses) - 1) }
    ensures bare { IsBare tiles.now.statuses status from (start_of (stretches tiles.now.statuses) result) }
    ensures past { from < start_of (stretches tiles.now.statuses) (result + 1) }
    ensures has { (b : Block) → slice_get (stretches tiles.now.statuses) result ≡ Some b → b.status ≡ status }
    ensures cost { steps.new ≤ steps.old + 127 }
{
    let begun = begun_in_front(tiles, from + 1, steps);
    for i in begun - 1..tiles.blocks() {
        steps.tick();
        if tiles.block(i).status.is(status) {
            return i;
        }
    }
    tiles.blocks()
}

/// The first position at or after `from` that has a status, and the end of its block. It looks at the last block first:
/// a run that goes up the first time finds it there.
#[inline(always)]
pub fn first_with<L: Ledger>(
    tiles: &PlainTiles,
    from: u64,
    status: Status,
    steps: &mut Steps<L>,
) -> Option<Range>
    requires few { length (stretches tiles.now.statuses) ≤ 120 }
    ensures first { IfSome result (λ range. IsFirst (Has tiles.now.statuses status) from range.from) }
    ensures range { IfSome result (λ range. IsRangeUp (Has tiles.now.statuses status) range.from range.to) }
    ensures none { IfNone result ((x : ℕ) → from ≤ x → Has tiles.now.statuses status x → ⊥) }
    ensures cost { steps.new ≤ steps.old + 129 }
{
    if tiles.end() <= from {
        return None;
    }
    let last = tiles.blocks() - 1;
    steps.tick();
    let block = tiles.block(last);
    if block.pos <= from {
        return if block.status.is(status) {
            Some(range_up(block, from))
        } else {
            None
        };
    }
    let i = first_from(tiles, from, status, steps);
    if i < tiles.blocks() {
        steps.tick();
        Some(range_up(tiles.block(i), from))
    } else {
        None
    }
}

/// The greatest end at or before `before` below which a position has a status, and the start of its block.
pub fn last_with<L: Ledger>(
    tiles: &PlainTiles,
    before: u64,
    status: Status,
    steps: &mut Steps<L>,
) -> Option<Range>
    requires few { length (stretches tiles.now.statuses) ≤ 120 }
    ensures last { IfSome result (λ range. IsLast (Has tiles.now.statuses status) before range.to) }
    ensures range { IfSome result (λ range. IsRangeDown (Has tiles.now.statuses status) range.from range.to) }
    ensures none { IfNone result ((x : ℕ) → x < before → Has tiles.now.statuses status x → ⊥) }
    ensures cost { steps.new ≤ steps.old + 128 }
{
    let to = before.min(tiles.end());
    if to == 0 {
        return None;
    }
    let begun = begun_before(tiles, to, steps);
    for i in (0..begun).rev() {
        steps.tick();
        let block = tiles.block(i);
        if block.status.is(status) {
            return Some(range_down(block, to));
        }
    }
    None
}
