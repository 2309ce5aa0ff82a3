//! The pages that an edit fills anew.
ghost use Rattle.std.specs.Prelude.{◌≡◌, ◌+◌, ◌<◌, ◌^◌, length};
ghost use Rattle.std.specs.List.{flat_map};
ghost use Rattle.block_list.specs.Map.{marked};
ghost use Rattle.block_list.specs.Stretches.{covered};
ghost use Rattle.paged_blocks.specs.Paging.{flat, IsPaging, AreHalfFull};
ghost use Rattle.paged_blocks.specs.Marks.{AreOfMap, IsEdit, edited};
ghost use Rattle.paged_blocks.specs.TouchedPages.{IsRegion, IsOfAllPages, IsOneBlock, refilled};

use crate::entry_list::Entries;
use crate::marks::edit::Edit;
use block_list::block::Block;
use block_pages::moved_blocks::MovedBlocks;
use block_pages::page::Page;

/// The pages of the entries from `first` up to `past`, and the blocks that come in the place of theirs.
#[derive(Drop)]
pub struct Region {
    pub first: usize,
    pub past: usize,
    pub blocks: MovedBlocks,
}

/// The first block of a map.
pub fn first_region(pages: &[Page], entries: &Entries, block: Block) -> Region
    requires none { length entries.now.items ≡ 0 }
    requires some { 0 < block.size }
    requires begins { block.pos ≡ 0 }
    requires short { block.pos + block.size < 2 ^ 63 }
    ensures region { IsRegion entries.now.items result }
    ensures full { IsOfAllPages entries.now.items result }
    ensures marked { AreOfMap (refilled pages.now entries.now.items result)
        (marked (flat_map covered (flat pages.now entries.now.items)) block.pos block.size block.status) }
    ensures one { IsOneBlock result }
{
    let mut blocks = MovedBlocks::new();
    blocks.push(block);
    Region {
        first: 0,
        past: 0,
        blocks,
    }
}

/// The pages that an edit touches, with the blocks that they hold after it.
fn touched(pages: &[Page], entries: &Entries, edit: &Edit) -> Region
    requires paging { IsPaging pages.now entries.now.items }
    requires edit { IsEdit pages.now entries.now.items edit.now }
    ensures region { IsRegion entries.now.items result }
    ensures same { refilled pages.now entries.now.items result ≡ edited pages.now entries.now.items edit.now }
{
    let mut blocks = MovedBlocks::new();
    blocks.copy(&pages[entries.at(edit.first).page], 0, edit.from);
    blocks.add(&edit.new);
    let last = &pages[entries.at(edit.last).page];
    blocks.copy(last, edit.to, last.len());
    Region {
        first: edit.first,
        past: edit.last + 1,
        blocks,
    }
}

/// A region with the page after it.
fn with_next(pages: &[Page], entries: &Entries, mut region: Region) -> Region
    requires paging { IsPaging pages.now entries.now.items }
    requires half { AreHalfFull entries.now.items }
    requires region { IsRegion entries.now.items region }
    requires few { length region.blocks < 32 }
    requires there { region.past < length entries.now.items }
    ensures region { IsRegion entries.now.items result }
    ensures same { refilled pages.now entries.now.items result ≡ refilled pages.now entries.now.items region }
    ensures full { IsOfAllPages entries.now.items result }
{
    let next = &pages[entries.at(region.past).page];
    region.blocks.copy(next, 0, next.len());
    region.past += 1;
    region
}

/// A region with the page before it.
fn with_former(pages: &[Page], entries: &Entries, region: Region) -> Region
    requires paging { IsPaging pages.now entries.now.items }
    requires half { AreHalfFull entries.now.items }
    requires region { IsRegion entries.now.items region }
    requires few { length region.blocks < 32 }
    requires there { 0 < region.first }
    ensures region { IsRegion entries.now.items result }
    ensures same { refilled pages.now entries.now.items result ≡ refilled pages.now entries.now.items region }
    ensures full { IsOfAllPages entries.now.items result }
{
    let first = region.first - 1;
    let former = &pages[entries.at(first).page];
    let mut blocks = MovedBlocks::new();
    blocks.copy(former, 0, former.len());
    blocks.append(&region.blocks);
    Region {
        first,
        past: region.past,
        blocks,
    }
}

/// The pages that an edit fills anew: those that it touches, and a neighbor if they would have too few blocks.
pub fn region_of(pages: &[Page], entries: &Entries, edit: &Edit) -> Region
    requires paging { IsPaging pages.now entries.now.items }
    requires half { AreHalfFull entries.now.items }
    requires edit { IsEdit pages.now entries.now.items edit.now }
    ensures region { IsRegion entries.now.items result }
    ensures same { refilled pages.now entries.now.items result ≡ edited pages.now entries.now.items edit.now }
    ensures full { IsOfAllPages entries.now.items result }
{
    let region = touched(pages, entries, edit);
    if region.blocks.len() >= 32 {
        return region;
    }
    if region.past < entries.len() {
        return with_next(pages, entries, region);
    }
    if region.first > 0 {
        return with_former(pages, entries, region);
    }
    region
}
