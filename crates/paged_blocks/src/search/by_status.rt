//! Where the blocks of pages have a status.
ghost use Rattle.std.specs.Prelude.{◌≡◌, ℕ, ◌+◌, ◌-◌, ◌/◌, ◌^◌, ◌<◌, ◌≤◌, length, max, min, Some, IfSome, IfNone};
ghost use Rattle.std.specs.List.{flat_map};
ghost use Rattle.block_list.specs.Map.{Has};
ghost use Rattle.block_list.specs.Places.{IsFirst, IsLast, IsRangeUp, IsRangeDown};
ghost use Rattle.block_list.specs.Stretches.{covered};
ghost use Rattle.block_pages.specs.Search.{AreNonempty, HasNoneOf, HasAt, IsFirstBlock, IsLastBlock};
ghost use Rattle.paged_blocks.specs.Walks.{IsWalk};
ghost use Rattle.paged_blocks.specs.Paging.{blocks_of, flat, IsEntry, IsPaging, AreHalfFull};

use crate::entry_list::Entries;
use crate::search::by_position::held_counted;
use block_list::block::{Block, Range};
use block_list::status::Status;
use block_pages::page::Page;
use block_pages::page_entry::PageEntry;
use block_pages::steps::Steps;
use std::sync::ledger::Ledger;

/// The first block with a status in the page of an entry, from the one with an index on. Blocks are read only if the
/// entry counts a position of that status.
fn first_in<L: Ledger>(
    pages: &[Page],
    entry: PageEntry,
    j: usize,
    status: Status,
    steps: &mut Steps<L>,
) -> Option<Block>
    requires entry { IsEntry pages.now entry }
    requires index { j ≤ length (blocks_of pages.now entry) }
    requires filled { AreNonempty (blocks_of pages.now entry) }
    ensures found { IfSome result (λ b. IsFirstBlock (blocks_of pages.now entry) status j b) }
    ensures none { IfNone result (HasNoneOf (blocks_of pages.now entry) status j (length (blocks_of pages.now entry))) }
    ensures cost { IsWalk steps.old steps.new (length (blocks_of pages.now entry)) }
    ensures passed { IfNone result (j ≡ 0 → steps.new ≡ steps.old) }
    ensures missed { IfNone result (steps.new < steps.old + length (blocks_of pages.now entry)) }
    ensures there { HasAt (blocks_of pages.now entry) status j → steps.new ≤ steps.old + 2 }
{
    if entry.tally.of(status) == 0 {
        return None;
    }
    pages[entry.page].first_from(j, status, steps)
}

/// The first position at or after `from` that has a status, and the end of its block.
#[inline(never)]
pub fn first_with<L: Ledger>(
    pages: &[Page],
    entries: &Entries,
    from: u64,
    status: Status,
    steps: &mut Steps<L>,
) -> Option<Range>
    requires paging { IsPaging pages.now entries.now.items }
    requires half { AreHalfFull entries.now.items }
    requires within { from < length (flat_map covered (flat pages.now entries.now.items)) }
    ensures first { IfSome result (λ range.
        IsFirst (Has (flat_map covered (flat pages.now entries.now.items)) status) from range.from) }
    ensures range { IfSome result (λ range.
        IsRangeUp (Has (flat_map covered (flat pages.now entries.now.items)) status) range.from range.to) }
    ensures none { IfNone result ((x : ℕ) → from ≤ x
        → Has (flat_map covered (flat pages.now entries.now.items)) status x → ⊥) }
    ensures cost { steps.new ≤ steps.old + length (flat pages.now entries.now.items) / 16 + 130 }
    ensures there { Has (flat_map covered (flat pages.now entries.now.items)) status from
        → steps.new ≤ steps.old + 130 }
{
    let (held, begun) = held_counted(pages, entries, from + 1, steps);
    steps.tick();
    if let Some(block) = first_in(pages, entries.at(held), begun - 1, status, steps) {
        return Some(range_up(block, from));
    }
    for k in held + 1..entries.len() {
        steps.tick();
        if let Some(block) = first_in(pages, entries.at(k), 0, status, steps) {
            return Some(range_up(block, from));
        }
    }
    None
}

/// The last of the first blocks with a status in the page of an entry. Blocks are read only if the entry counts a
/// position of that status.
fn last_in<L: Ledger>(
    pages: &[Page],
    entry: PageEntry,
    j: usize,
    status: Status,
    steps: &mut Steps<L>,
) -> Option<Block>
    requires entry { IsEntry pages.now entry }
    requires index { j ≤ length (blocks_of pages.now entry) }
    requires filled { AreNonempty (blocks_of pages.now entry) }
    ensures found { IfSome result (λ b. IsLastBlock (blocks_of pages.now entry) status j b) }
    ensures none { IfNone result (HasNoneOf (blocks_of pages.now entry) status 0 j) }
    ensures cost { IsWalk steps.old steps.new (length (blocks_of pages.now entry)) }
    ensures passed { IfNone result (j ≡ length (blocks_of pages.now entry) → steps.new ≡ steps.old) }
    ensures missed { IfNone result (steps.new < steps.old + length (blocks_of pages.now entry)) }
    ensures there { HasAt (blocks_of pages.now entry) status (j - 1) → steps.new ≤ steps.old + 2 }
{
    if entry.tally.of(status) == 0 {
        return None;
    }
    pages[entry.page].last_below(j, status, steps)
}

/// The greatest end at or before `to` below which a position has a status, and the start of its block.
pub fn last_with<L: Ledger>(
    pages: &[Page],
    entries: &Entries,
    to: u64,
    status: Status,
    steps: &mut Steps<L>,
) -> Option<Range>
    requires paging { IsPaging pages.now entries.now.items }
    requires half { AreHalfFull entries.now.items }
    requires within { to ≤ length (flat_map covered (flat pages.now entries.now.items)) }
    ensures last { IfSome result (λ range.
        IsLast (Has (flat_map covered (flat pages.now entries.now.items)) status) to range.to) }
    ensures range { IfSome result (λ range.
        IsRangeDown (Has (flat_map covered (flat pages.now entries.now.items)) status) range.from range.to) }
    ensures none { IfNone result ((x : ℕ) → x < to
        → Has (flat_map covered (flat pages.now entries.now.items)) status x → ⊥) }
    ensures cost { steps.new ≤ steps.old + length (flat pages.now entries.now.items) / 16 + 130 }
    ensures there { Has (flat_map covered (flat pages.now entries.now.items)) status (to - 1)
        → steps.new ≤ steps.old + 130 }
{
    if to == 0 {
        return None;
    }
    let (held, begun) = held_counted(pages, entries, to, steps);
    steps.tick();
    if let Some(block) = last_in(pages, entries.at(held), begun, status, steps) {
        return Some(range_down(block, to));
    }
    for k in (0..held).rev() {
        steps.tick();
        let entry = entries.at(k);
        if let Some(block) = last_in(pages, entry, entry.len, status, steps) {
            return Some(range_down(block, to));
        }
    }
    None
}

/// The part of a block at or after a position.
pub fn range_up(block: Block, from: u64) -> Range
    requires { block.pos + block.size < 2 ^ 64 }
    ensures { result ≡ record { from = max from block.pos; to = block.pos + block.size } }
{
    Range {
        from: from.max(block.pos),
        to: block.pos + block.size,
    }
}

/// The part of a block below a position.
pub fn range_down(block: Block, to: u64) -> Range
    requires { block.pos + block.size < 2 ^ 64 }
    ensures { result ≡ record { from = block.pos; to = min to (block.pos + block.size) } }
{
    Range {
        from: block.pos,
        to: to.min(block.pos + block.size),
    }
}
