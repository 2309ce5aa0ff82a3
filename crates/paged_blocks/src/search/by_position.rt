//! Which block holds a position.
ghost use Rattle.std.specs.Prelude.{◌≡◌, ℕ, ◌+◌, ◌-◌, ◌^◌, ◌<◌, ◌≤◌, true, length};
ghost use Rattle.std.specs.List.{flat_map};
ghost use Rattle.block_list.specs.Map.{marked};
ghost use Rattle.block_list.specs.Stretches.{covered, IsStretchAt};
ghost use Rattle.paged_blocks.specs.Paging.{flat, IsPaging, IsHeld};

use crate::entry_list::Entries;
use block_list::block::Block;
use block_pages::page::Page;
use block_pages::steps::Steps;
use std::marker::Brand;
use std::sync::ledger::{Blank, Ledger};

/// The index of the last entry that begins before a position, and how many blocks of its page do.
pub fn held_counted<L: Ledger>(
    pages: &[Page],
    entries: &Entries,
    at: u64,
    steps: &mut Steps<L>,
) -> (usize, usize)
    requires paging { IsPaging pages.now entries.now.items }
    requires some { 0 < at }
    requires within { at ≤ length (flat_map covered (flat pages.now entries.now.items)) }
    ensures held { IsHeld pages.now entries.now.items at result.0 result.1 }
    ensures few { steps.new ≤ steps.old + 71 }
    ensures cost { (n : ℕ) → length entries.now.items ≤ 2 ^ n → steps.new ≤ steps.old + n + 7 }
{
    let last = entries.last_before(at, steps);
    steps.tick();
    let page = &pages[entries.at(last).page];
    (last, page.before(at, steps))
}

/// `held_counted`, in a new ledger that nobody reads.
fn held_uncounted<L: Ledger>(
    pages: &[Page],
    entries: &Entries,
    at: u64,
    blank: Blank,
) -> (usize, usize)
    requires name { blank.name ≡ L.name }
    requires parts { blank.parts ≡ L.parts }
    requires one { 0 < blank.parts }
    requires paging { IsPaging pages.now entries.now.items }
    requires some { 0 < at }
    requires within { at ≤ length (flat_map covered (flat pages.now entries.now.items)) }
    ensures { IsHeld pages.now entries.now.items at result.0 result.1 }
{
    let mut steps = Steps::<L>::new(blank);
    held_counted(pages, entries, at, &mut steps)
}

/// The index of the last entry that begins before a position, and how many blocks of its page do.
pub fn held_before(pages: &[Page], entries: &Entries, at: u64) -> (usize, usize)
    requires paging { IsPaging pages.now entries.now.items }
    requires some { 0 < at }
    requires within { at ≤ length (flat_map covered (flat pages.now entries.now.items)) }
    ensures { IsHeld pages.now entries.now.items at result.0 result.1 }
{
    held_uncounted::<Brand>(pages, entries, at, Blank::new(1))
}

/// The stretch of equal statuses that holds a position.
pub fn stretch_at(pages: &[Page], entries: &Entries, x: u64) -> Block
    requires paging { IsPaging pages.now entries.now.items }
    requires within { x < length (flat_map covered (flat pages.now entries.now.items)) }
    ensures { IsStretchAt (flat_map covered (flat pages.now entries.now.items)) x result }
{
    let (last, begun) = held_before(pages, entries, x + 1);
    pages[entries.at(last).page].block(begun - 1)
}

/// Whether the positions of a block have its status already.
pub fn is_marked(pages: &[Page], entries: &Entries, block: Block) -> bool
    requires paging { IsPaging pages.now entries.now.items }
    requires some { 0 < block.size }
    requires within { block.pos + block.size ≤ length (flat_map covered (flat pages.now entries.now.items)) }
    ensures { result ≡ true
        → marked (flat_map covered (flat pages.now entries.now.items)) block.pos block.size block.status
        ≡ flat_map covered (flat pages.now entries.now.items) }
{
    let held = stretch_at(pages, entries, block.pos);
    if !held.status.is(block.status) {
        return false;
    }
    block.pos + block.size <= held.pos + held.size
}
