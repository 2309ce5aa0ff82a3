//! The entry of a page: what is known of it without a look at its blocks.
ghost use Rattle.std.specs.Prelude.{◌≡◌, ◌+◌, ◌<◌, ◌≤◌, ◌^◌, length, slice_range, count_by};
ghost use Rattle.std.specs.List.{flat_map};
ghost use Rattle.block_list.specs.declared.status.Status.{Status};
ghost use Rattle.block_list.specs.Stretches.{covered};
ghost use Rattle.block_list.specs.Status.{same};
ghost use Rattle.block_pages.specs.Tally.{tallied};
ghost use Rattle.block_pages.specs.Splice.{spliced};
ghost use Rattle.block_pages.specs.PageEntries.{IsEntryOf};

use crate::marked_blocks::MarkedBlocks;
use crate::page::Page;
use crate::status_counts::StatusCounts;
use block_list::status::Status;

/// The place of a page in the map: its number, the position at which it begins, how many blocks it has, and how many
/// positions of each status.
#[derive(Clone, Copy, Debug, PartialEq, Eq)]
pub struct PageEntry {
    pub page: usize,
    pub pos: u64,
    pub len: usize,
    pub tally: StatusCounts,
}

/// How many positions of the blocks of a page from one index up to another have each status.
fn tally_of(page: &Page, from: usize, to: usize) -> StatusCounts
    requires order { from ≤ to }
    requires within { to ≤ length page.now }
    requires short { length (flat_map covered page.now) < 2 ^ 63 }
    ensures { (s : Status) → tallied result s
        ≡ count_by (λ z. same z s) (flat_map covered (slice_range page.now from to)) }
{
    let mut tally = StatusCounts::none();
    for i in from..to {
        let block = page.block(i);
        tally.add(block.status, block.size);
    }
    tally
}

/// The entry of a page with a number.
pub fn entry_of(number: usize, page: &Page) -> PageEntry
    requires some { 0 < length page.now }
    requires short { length (flat_map covered page.now) < 2 ^ 63 }
    ensures { IsEntryOf page.now number result }
{
    PageEntry {
        page: number,
        pos: page.block(0).pos,
        len: page.len(),
        tally: tally_of(page, 0, page.len()),
    }
}

/// The entry of a page with other blocks in the place of those from one index up to another. Only the blocks that go
/// and come are counted.
pub fn entry_after(
    entry: PageEntry,
    page: &Page,
    from: usize,
    to: usize,
    new: &MarkedBlocks,
) -> PageEntry
    requires says { IsEntryOf page.now entry.page entry }
    requires order { from ≤ to }
    requires within { to ≤ length page.now }
    requires some { 0 < length new.now }
    requires fits { length (spliced page.now from to new.now) ≤ 64 }
    requires short { length (flat_map covered page.now) < 2 ^ 63 }
    requires new_short { length (flat_map covered (spliced page.now from to new.now)) < 2 ^ 63 }
    ensures number { result.page ≡ entry.page }
    ensures says { IsEntryOf (spliced page.now from to new.now) entry.page result }
{
    let gone = tally_of(page, from, to);
    let come = new.tally();
    let pos = if from == 0 {
        new.block(0).pos
    } else {
        entry.pos
    };
    PageEntry {
        page: entry.page,
        pos,
        len: entry.len + new.len() - (to - from),
        tally: entry.tally.exchanged(gone, come),
    }
}
