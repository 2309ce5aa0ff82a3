//! How a mark is made: in one page, in two, or in pages that are filled anew.
ghost use Rattle.std.specs.Prelude.{◌≡◌, ℕ, ◌+◌, ◌-◌, ◌<◌, ◌≤◌, true, List, All, length, slice_index_or, vec_len, vec_capacity};
ghost use Rattle.std.specs.List.{flat_map};
ghost use Rattle.block_list.specs.Map.{marked};
ghost use Rattle.block_list.specs.Stretches.{covered};
ghost use Rattle.block_pages.specs.declared.page_entry.PageEntry.{PageEntry};
ghost use Rattle.block_pages.specs.Splice.{spliced};
ghost use Rattle.block_pages.specs.Rows.{AreRow};
ghost use Rattle.paged_blocks.specs.Paging.{blocks_of, flat, IsEntry, IsPaging, IsKeptInPages, IsRewritten};
ghost use Rattle.paged_blocks.specs.Marks.{IsMarkable, AreMapBlocks, IsEdit, edited};
ghost use Rattle.paged_blocks.specs.TouchedPages.{StaysInPage, StaysInTwoPages};
ghost use Rattle.paged_blocks.specs.Room.{room_for, HasRoomForMark, AddsFew, KeepsRoom, KeepsSizes};

use crate::entry_list::Entries;
use crate::marks::edit::{Edit, mark};
use crate::marks::refill::refill;
use crate::marks::touched_pages::{first_region, region_of};
use block_list::block::Block;
use block_pages::marked_blocks::MarkedBlocks;
use block_pages::page::Page;
use block_pages::page_entry::entry_after;

/// Whether an edit touches one page, and leaves it as full as it is to be.
fn stays_in_page(pages: &[Page], entries: &Entries, edit: &Edit) -> bool
    requires paging { IsPaging pages.now entries.now.items }
    requires edit { IsEdit pages.now entries.now.items edit.now }
    ensures { result ≡ true → StaysInPage entries.now.items edit.now }
{
    if edit.first != edit.last {
        return false;
    }
    let len = entries.at(edit.first).len + edit.new.len() - (edit.to - edit.from);
    len <= 64 && (len >= 32 || entries.len() == 1)
}

/// Whether an edit touches two pages beside each other, of which each keeps its number of blocks.
fn stays_in_two_pages(pages: &[Page], entries: &Entries, edit: &Edit) -> bool
    requires paging { IsPaging pages.now entries.now.items }
    requires edit { IsEdit pages.now entries.now.items edit.now }
    ensures { result ≡ true → StaysInTwoPages entries.now.items edit.now }
{
    if edit.last - edit.first != 1 {
        return false;
    }
    let len = entries.at(edit.first).len;
    edit.from < len && 0 < edit.to && edit.from + edit.new.len() == len + edit.to
}

/// Puts other blocks in the place of those from one index up to another in the page of an entry, which says what that
/// holds then. No other entry moves.
fn splice_page(
    pages: &mut Vec<Page>,
    entries: &mut Entries,
    k: usize,
    from: usize,
    to: usize,
    new: &MarkedBlocks,
)
    requires each { All (IsEntry pages.old.items) entries.old.items }
    requires index { k < length entries.old.items }
    requires order { from ≤ to }
    requires within { (d : PageEntry)
        → to ≤ length (blocks_of pages.old.items (slice_index_or entries.old.items k d)) }
    requires some { 0 < length new.now }
    requires fits { (d : PageEntry)
        → length (blocks_of pages.old.items (slice_index_or entries.old.items k d)) + length new.now
        ≤ 64 + (to - from) }
    requires row { (d : PageEntry) → AreRow (blocks_of pages.old.items (slice_index_or entries.old.items k d)) }
    requires spliced { (d : PageEntry)
        → AreRow (spliced (blocks_of pages.old.items (slice_index_or entries.old.items k d)) from to new.now) }
    ensures rewritten { (d : PageEntry) → IsRewritten pages.old.items entries.old.items k
        (spliced (blocks_of pages.old.items (slice_index_or entries.old.items k d)) from to new.now)
        pages.new.items entries.new.items }
    ensures sizes { KeepsSizes (length entries.old.items) (vec_len pages.old) entries.old.room
        (length entries.new.items) (vec_len pages.new) entries.new.room }
{
    let old = entries.at(k);
    let entry = entry_after(old, &pages[old.page], from, to, new);
    entries.put(k, entry);
    pages[old.page].splice(from, to, new);
}

/// Makes an edit in the page that it stays in.
fn edit_page(pages: &mut Vec<Page>, entries: &mut Entries, edit: &Edit)
    requires kept { (free : List ℕ) × IsKeptInPages pages.old.items entries.old.items free }
    requires edit { IsEdit pages.old.items entries.old.items edit.now }
    requires stays { StaysInPage entries.old.items edit.now }
    requires whole { AreMapBlocks (edited pages.old.items entries.old.items edit.now) }
    ensures kept { (free : List ℕ) → IsKeptInPages pages.old.items entries.old.items free
        → IsKeptInPages pages.new.items entries.new.items free }
    ensures flat { flat pages.new.items entries.new.items ≡ edited pages.old.items entries.old.items edit.now }
    ensures sizes { KeepsSizes (length entries.old.items) (vec_len pages.old) entries.old.room
        (length entries.new.items) (vec_len pages.new) entries.new.room }
{
    splice_page(pages, entries, edit.first, edit.from, edit.to, &edit.new);
}

/// Makes an edit in the two pages that it stays in.
fn edit_two_pages(pages: &mut Vec<Page>, entries: &mut Entries, edit: &Edit)
    requires kept { (free : List ℕ) × IsKeptInPages pages.old.items entries.old.items free }
    requires edit { IsEdit pages.old.items entries.old.items edit.now }
    requires stays { StaysInTwoPages entries.old.items edit.now }
    requires whole { AreMapBlocks (edited pages.old.items entries.old.items edit.now) }
    ensures kept { (free : List ℕ) → IsKeptInPages pages.old.items entries.old.items free
        → IsKeptInPages pages.new.items entries.new.items free }
    ensures flat { flat pages.new.items entries.new.items ≡ edited pages.old.items entries.old.items edit.now }
    ensures sizes { KeepsSizes (length entries.old.items) (vec_len pages.old) entries.old.room
        (length entries.new.items) (vec_len pages.new) entries.new.room }
{
    let len = entries.at(edit.first).len;
    let count = len - edit.from;
    let front = edit.new.part(0, count);
    let back = edit.new.part(count, edit.new.len());
    splice_page(pages, entries, edit.first, edit.from, len, &front);
    splice_page(pages, entries, edit.last, 0, edit.to, &back);
}

/// Makes an edit, for which the pages that it touches are filled anew.
// It has many blocks on their way, for which a function pays as it begins.
#[cold]
#[inline(never)]
fn edit_pages(pages: &mut Vec<Page>, entries: &mut Entries, free: &mut Vec<usize>, edit: &Edit)
    requires kept { IsKeptInPages pages.old.items entries.old.items free.old.items }
    requires edit { IsEdit pages.old.items entries.old.items edit.now }
    requires whole { AreMapBlocks (edited pages.old.items entries.old.items edit.now) }
    requires spare { 1 ≤ room_for (vec_len pages.old) (entries.old.room) (length entries.old.items)
        (length (edited pages.old.items entries.old.items edit.now) - 1) }
    requires room { vec_len pages.old ≤ vec_capacity free.old }
    ensures kept { IsKeptInPages pages.new.items entries.new.items free.new.items }
    ensures flat { flat pages.new.items entries.new.items ≡ edited pages.old.items entries.old.items edit.now }
    ensures few { length entries.new.items ≤ length entries.old.items + 1 }
    ensures room { KeepsRoom (vec_len pages.old) entries.old.room (vec_len pages.new) entries.new.room
        (vec_capacity free.new) }
{
    let region = region_of(pages, entries, edit);
    refill(pages, entries, free, &region);
}

/// Makes the first page, of one block.
#[cold]
#[inline(never)]
fn edit_none(pages: &mut Vec<Page>, entries: &mut Entries, free: &mut Vec<usize>, block: Block)
    requires kept { IsKeptInPages pages.old.items entries.old.items free.old.items }
    requires none { length entries.old.items ≡ 0 }
    requires mark { IsMarkable 0 block }
    requires spare { 1 ≤ room_for (vec_len pages.old) (entries.old.room) (length entries.old.items)
        (length (flat pages.old.items entries.old.items)) }
    requires room { vec_len pages.old ≤ vec_capacity free.old }
    ensures kept { IsKeptInPages pages.new.items entries.new.items free.new.items }
    ensures marked { flat_map covered (flat pages.new.items entries.new.items)
        ≡ marked (flat_map covered (flat pages.old.items entries.old.items)) block.pos block.size block.status }
    ensures one { length (flat pages.new.items entries.new.items) ≤ 1 }
    ensures few { length entries.new.items ≤ 1 }
    ensures room { KeepsRoom (vec_len pages.old) entries.old.room (vec_len pages.new) entries.new.room
        (vec_capacity free.new) }
{
    let region = first_region(pages, entries, block);
    refill(pages, entries, free, &region);
}

/// Gives a status to the positions of a block, of which the last ones may lie past the map's end.
pub fn overwrite(
    pages: &mut Vec<Page>,
    entries: &mut Entries,
    free: &mut Vec<usize>,
    end: u64,
    block: Block,
)
    requires kept { IsKeptInPages pages.old.items entries.old.items free.old.items }
    requires mark { IsMarkable end block }
    requires end { end ≡ length (flat_map covered (flat pages.old.items entries.old.items)) }
    requires spare { HasRoomForMark (block.pos + block.size) end (room_for (vec_len pages.old) (entries.old.room)
        (length entries.old.items) (length (flat pages.old.items entries.old.items))) }
    requires room { vec_len pages.old ≤ vec_capacity free.old }
    ensures kept { IsKeptInPages pages.new.items entries.new.items free.new.items }
    ensures marked { flat_map covered (flat pages.new.items entries.new.items)
        ≡ marked (flat_map covered (flat pages.old.items entries.old.items)) block.pos block.size block.status }
    ensures gain { AddsFew (block.pos + block.size) end (length (flat pages.old.items entries.old.items))
        (length (flat pages.new.items entries.new.items)) }
    ensures few { length entries.new.items ≤ length entries.old.items + 1 }
    ensures room { KeepsRoom (vec_len pages.old) entries.old.room (vec_len pages.new) entries.new.room
        (vec_capacity free.new) }
{
    if entries.len() == 0 {
        edit_none(pages, entries, free, block);
        return;
    }
    let edit = mark(pages, entries, end, block);
    if stays_in_page(pages, entries, &edit) {
        edit_page(pages, entries, &edit);
        return;
    }
    if stays_in_two_pages(pages, entries, &edit) {
        edit_two_pages(pages, entries, &edit);
        return;
    }
    edit_pages(pages, entries, free, &edit);
}
