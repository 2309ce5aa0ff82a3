//! What a mark puts in the place of which blocks.
ghost use Rattle.std.specs.Prelude.{◌≡◌, ◌+◌, ◌<◌, ◌≤◌, ◌^◌, length, slice_index_or};
ghost use Rattle.std.specs.List.{flat_map};
ghost use Rattle.block_list.specs.Map.{marked};
ghost use Rattle.block_list.specs.Stretches.{covered};
ghost use Rattle.block_pages.specs.declared.page_entry.PageEntry.{PageEntry};
ghost use Rattle.paged_blocks.specs.Paging.{blocks_of, flat, before, IsPaging};
ghost use Rattle.paged_blocks.specs.Marks.{IsJoinedFront, IsJoinedBack, IsEdit, AreOfMap, edited, edit_from, edit_to};

use crate::entry_list::Entries;
use crate::search::by_position::held_before;
use crate::search::near::held_near;
use block_list::block::Block;
use block_list::near::Near;
use block_pages::marked_blocks::MarkedBlocks;
use block_pages::page::Page;

/// One end of a mark: the marked block, joined with its neighbor there if that has the same status. Of a neighbor of
/// another status that the mark cuts, `rest` is what is left. The blocks that stay end or begin at an index in the page
/// of an entry.
#[derive(Clone, Copy, Debug)]
pub struct Joined {
    pub entry: usize,
    pub index: usize,
    pub rest: Option<Block>,
    pub block: Block,
}

/// A few blocks that come in the place of those from the index `from` in the page of the entry `first` up to the index
/// `to` in the page of the entry `last`.
#[derive(Drop)]
pub struct Edit {
    pub first: usize,
    pub from: usize,
    pub last: usize,
    pub to: usize,
    pub new: MarkedBlocks,
}

/// The place of the block after the first ones of an entry's page, which may be all of them, in a map that goes on.
fn place_after(pages: &[Page], entries: &Entries, entry: usize, begun: usize) -> (usize, usize)
    requires paging { IsPaging pages.now entries.now.items }
    requires entry { entry < length entries.now.items }
    requires begun { (d : PageEntry) → begun ≤ length (blocks_of pages.now (slice_index_or entries.now.items entry d)) }
    requires later { before pages.now entries.now.items entry + begun < length (flat pages.now entries.now.items) }
    ensures entry { result.0 < length entries.now.items }
    ensures index { (d : PageEntry) → result.1
        < length (blocks_of pages.now (slice_index_or entries.now.items result.0 d)) }
    ensures same { before pages.now entries.now.items result.0 + result.1
        ≡ before pages.now entries.now.items entry + begun }
{
    if begun < pages[entries.at(entry).page].len() {
        (entry, begun)
    } else {
        (entry + 1, 0)
    }
}

/// The place before the last of the first blocks of an entry's page, in a map with one before that.
fn place_in_front(pages: &[Page], entries: &Entries, entry: usize, begun: usize) -> (usize, usize)
    requires paging { IsPaging pages.now entries.now.items }
    requires entry { entry < length entries.now.items }
    requires begun { (d : PageEntry) → begun ≤ length (blocks_of pages.now (slice_index_or entries.now.items entry d)) }
    requires some { 0 < begun }
    requires later { 1 < before pages.now entries.now.items entry + begun }
    ensures entry { result.0 < length entries.now.items }
    ensures index { (d : PageEntry) → result.1
        ≤ length (blocks_of pages.now (slice_index_or entries.now.items result.0 d)) }
    ensures some { 0 < result.1 }
    ensures same { before pages.now entries.now.items result.0 + result.1 + 1
        ≡ before pages.now entries.now.items entry + begun }
{
    if begun > 1 {
        return (entry, begun - 1);
    }
    let front = entry - 1;
    (front, pages[entries.at(front).page].len())
}

/// A block at a place, and what is left of a neighbor.
fn joined_at(place: (usize, usize), rest: Option<Block>, block: Block) -> Joined
    ensures { result ≡ record { entry = place.0; index = place.1; rest = rest; block = block } }
{
    let (entry, index) = place;
    Joined {
        entry,
        index,
        rest,
        block,
    }
}

/// A block, joined with the block that holds the position before it, in a map with an end.
fn join_front(pages: &[Page], entries: &Entries, end: u64, block: Block) -> Joined
    requires paging { IsPaging pages.now entries.now.items }
    requires there { 0 < length entries.now.items }
    requires some { 0 < block.size }
    requires end { end ≡ length (flat_map covered (flat pages.now entries.now.items)) }
    requires begins { block.pos ≤ end }
    requires short { block.pos + block.size < 2 ^ 63 }
    ensures entry { result.entry < length entries.now.items }
    ensures index { (d : PageEntry) → result.index
        ≤ length (blocks_of pages.now (slice_index_or entries.now.items result.entry d)) }
    ensures joined { IsJoinedFront (flat pages.now entries.now.items) block
        (before pages.now entries.now.items result.entry + result.index) result.rest result.block }
{
    if block.pos == 0 {
        return joined_at((0, 0), None, block);
    }
    let (entry, begun) = held_before(pages, entries, block.pos);
    let front = pages[entries.at(entry).page].block(begun - 1);
    if front.status.is(block.status) {
        let wide = Block {
            pos: front.pos,
            size: block.pos + block.size - front.pos,
            status: block.status,
        };
        return joined_at((entry, begun - 1), None, wide);
    }
    let size = block.pos - front.pos;
    if size == front.size && block.pos < end {
        return joined_at(place_after(pages, entries, entry, begun), None, block);
    }
    let rest = Block { size, ..front };
    joined_at((entry, begun - 1), Some(rest), block)
}

/// A block, joined with the block that holds the position after it, in a map with an end. It looks `near` first.
fn join_back(pages: &[Page], entries: &Entries, end: u64, near: Near, block: Block) -> Joined
    requires paging { IsPaging pages.now entries.now.items }
    requires there { 0 < length entries.now.items }
    requires some { 0 < block.size }
    requires end { end ≡ length (flat_map covered (flat pages.now entries.now.items)) }
    requires short { block.pos + block.size < 2 ^ 63 }
    ensures entry { result.entry < length entries.now.items }
    ensures index { (d : PageEntry) → result.index
        ≤ length (blocks_of pages.now (slice_index_or entries.now.items result.entry d)) }
    ensures joined { IsJoinedBack (flat pages.now entries.now.items) block
        (before pages.now entries.now.items result.entry + result.index) result.rest result.block }
{
    let past = block.pos + block.size;
    if end <= past {
        let entry = entries.len() - 1;
        return joined_at((entry, entries.at(entry).len), None, block);
    }
    let held = held_near(pages, entries, near, past);
    let (entry, index) = (held.page, held.block + 1);
    let back = pages[entries.at(entry).page].block(held.block);
    let size = back.pos + back.size - past;
    if back.status.is(block.status) {
        let wide = Block {
            pos: block.pos,
            size: block.size + size,
            status: block.status,
        };
        return joined_at((entry, index), None, wide);
    }
    if size == back.size {
        return joined_at(place_in_front(pages, entries, entry, index), None, block);
    }
    let rest = Block {
        pos: past,
        size,
        status: back.status,
    };
    joined_at((entry, index), Some(rest), block)
}

/// The edit that gives a status to the positions of a block, which may go on past the map's end.
pub fn mark(pages: &[Page], entries: &Entries, end: u64, block: Block) -> Edit
    requires paging { IsPaging pages.now entries.now.items }
    requires there { 0 < length entries.now.items }
    requires some { 0 < block.size }
    requires end { end ≡ length (flat_map covered (flat pages.now entries.now.items)) }
    requires begins { block.pos ≤ end }
    requires short { block.pos + block.size < 2 ^ 63 }
    ensures edit { IsEdit pages.now entries.now.items result }
    ensures marked { AreOfMap (edited pages.now entries.now.items result)
        (marked (flat_map covered (flat pages.now entries.now.items)) block.pos block.size block.status) }
    ensures adds { end ≤ block.pos + block.size → edit_from pages.now entries.now.items result + length result.new
        ≤ edit_to pages.now entries.now.items result + 1 }
{
    let front = join_front(pages, entries, end, block);
    let near = Near {
        page: front.entry,
        block: front.index,
    };
    let back = join_back(pages, entries, end, near, front.block);
    let mut new = MarkedBlocks::new();
    new.push_some(front.rest);
    new.push(back.block);
    new.push_some(back.rest);
    Edit {
        first: front.entry,
        from: front.index,
        last: back.entry,
        to: back.index,
        new,
    }
}
