//! Pages that are taken into use and set free.
ghost use Rattle.std.specs.Prelude.{◌≡◌, ℕ, ◌+◌, ◌-◌, ◌*◌, ◌<◌, ◌≤◌, ◌^◌, ◌++◌, length, take, drop, vec_len, vec_capacity};
ghost use Rattle.std.specs.List.{flat_map};
ghost use Rattle.block_list.specs.Stretches.{covered};
ghost use Rattle.block_pages.specs.Rows.{AreRow};
ghost use Rattle.paged_blocks.specs.Paging.{flat, short_pages, naming, times_free, AreFiled, IsKeptInPages};
ghost use Rattle.paged_blocks.specs.TouchedPages.{IsRegion, IsOfAllPages, refilled};
ghost use Rattle.paged_blocks.specs.Marks.{AreMapBlocks};
ghost use Rattle.paged_blocks.specs.Room.{HasPagesFor, KeepsRoom};

use crate::entry_list::Entries;
use crate::marks::touched_pages::Region;
use block_pages::moved_blocks::MovedBlocks;
use block_pages::page::Page;
use block_pages::page_entry::entry_of;
use block_pages::page_from_list::page_len;

/// Files a page before the entry with an index, under the number of a free page.
fn place(pages: &mut Vec<Page>, entries: &mut Entries, free: &mut Vec<usize>, k: usize, page: Page)
    requires filed { AreFiled pages.old.items entries.old.items free.old.items }
    requires index { k ≤ length entries.old.items }
    requires some { 0 < length page }
    requires short { length (flat_map covered page) < 2 ^ 63 }
    requires there { 0 < vec_len free.old }
    requires room { length entries.old.items < entries.old.room }
    ensures filed { AreFiled pages.new.items entries.new.items free.new.items }
    ensures front { flat pages.new.items (take (k + 1) entries.new.items)
        ≡ flat pages.old.items (take k entries.old.items) ++ page }
    ensures back { flat pages.new.items (drop (k + 1) entries.new.items)
        ≡ flat pages.old.items (drop k entries.old.items) }
    ensures shorts { short_pages entries.new.items ≤ short_pages entries.old.items + 1 }
    ensures half { 32 ≤ length page → short_pages entries.new.items ≡ short_pages entries.old.items }
    ensures pages { vec_len pages.new ≡ vec_len pages.old }
    ensures entries { length entries.new.items ≡ length entries.old.items + 1 }
    ensures capacity { entries.old.room ≤ entries.new.room }
    ensures free { vec_capacity free.new ≡ vec_capacity free.old }
{
    if let Some(number) = free.pop() {
        let entry = entry_of(number, &page);
        pages[number] = page;
        entries.insert(k, entry);
    }
}

/// Takes out the entries from one index up to another. Their pages become free.
fn release(entries: &mut Entries, free: &mut Vec<usize>, first: usize, past: usize)
    requires order { first ≤ past }
    requires within { past ≤ length entries.old.items }
    requires room { length entries.old.items + vec_len free.old ≤ vec_capacity free.old }
    ensures entries { entries.new.items ≡ take first entries.old.items ++ drop past entries.old.items }
    ensures numbers { (n : ℕ) → naming n entries.new.items + times_free n free.new.items
        ≡ naming n entries.old.items + times_free n free.old.items }
    ensures len { length entries.new.items + vec_len free.new ≡ length entries.old.items + vec_len free.old }
    ensures capacity { entries.old.room ≤ entries.new.room }
    ensures free { vec_capacity free.old ≤ vec_capacity free.new }
{
    for k in first..past {
        // There is room, so this takes no memory and succeeds.
        let _ = free.push(entries.at(k).page);
    }
    entries.take_out(first, past);
}

/// Files blocks in as few pages as hold them, before the entry with an index. Each of the pages has at least 32 blocks,
/// if there are that many. So a page that would have too many blocks is split.
fn deal(
    pages: &mut Vec<Page>,
    entries: &mut Entries,
    free: &mut Vec<usize>,
    first: usize,
    blocks: &MovedBlocks,
)
    requires filed { AreFiled pages.old.items entries.old.items free.old.items }
    requires index { first ≤ length entries.old.items }
    requires some { 0 < length blocks.now }
    requires short { length (flat_map covered blocks.now) < 2 ^ 63 }
    requires row { AreRow blocks.now }
    requires pages { 64 * length entries.old.items + length blocks.now ≤ 64 * vec_len pages.old }
    requires entries { 64 * length entries.old.items + length blocks.now ≤ 64 * entries.old.room }
    ensures filed { AreFiled pages.new.items entries.new.items free.new.items }
    ensures flat { flat pages.new.items entries.new.items ≡ flat pages.old.items (take first entries.old.items)
        ++ blocks.now ++ flat pages.old.items (drop first entries.old.items) }
    ensures half { 32 ≤ length blocks.now → short_pages entries.new.items ≡ short_pages entries.old.items }
    ensures one { length blocks.now < 32 → length entries.new.items ≡ length entries.old.items + 1 }
    ensures few { 64 * length entries.new.items < 64 * length entries.old.items + length blocks.now + 64 }
    ensures pages { vec_len pages.new ≡ vec_len pages.old }
    ensures capacity { entries.old.room ≤ entries.new.room }
    ensures free { vec_capacity free.new ≡ vec_capacity free.old }
{
    let len = blocks.len();
    let mut made = 0;
    let mut k = first;
    while made < len {
        let to = made + page_len(len - made);
        place(pages, entries, free, k, blocks.page(made, to));
        made = to;
        k += 1;
    }
}

/// Puts blocks in the place of those of some pages. The pages that had those become free before others are taken into
/// use.
pub fn refill(pages: &mut Vec<Page>, entries: &mut Entries, free: &mut Vec<usize>, region: &Region)
    requires kept { IsKeptInPages pages.old.items entries.old.items free.old.items }
    requires region { IsRegion entries.old.items region.now }
    requires full { IsOfAllPages entries.old.items region.now }
    requires whole { AreMapBlocks (refilled pages.old.items entries.old.items region.now) }
    requires fit { HasPagesFor (length entries.old.items) (region.now.past - region.now.first)
        (length region.now.blocks) (vec_len pages.old) entries.old.room }
    requires room { vec_len pages.old ≤ vec_capacity free.old }
    ensures kept { IsKeptInPages pages.new.items entries.new.items free.new.items }
    ensures flat { flat pages.new.items entries.new.items ≡ refilled pages.old.items entries.old.items region.now }
    ensures few { 64 * (length entries.new.items + (region.now.past - region.now.first))
        < 64 * length entries.old.items + length region.now.blocks + 64 }
    ensures room { KeepsRoom (vec_len pages.old) entries.old.room (vec_len pages.new) entries.new.room
        (vec_capacity free.new) }
{
    release(entries, free, region.first, region.past);
    deal(pages, entries, free, region.first, &region.blocks);
}
