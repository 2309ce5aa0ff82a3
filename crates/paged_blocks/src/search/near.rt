//! Where a walk along pages looks first.
ghost use Rattle.std.specs.Prelude.{◌≡◌, ◌+◌, ◌<◌, true, length};
ghost use Rattle.std.specs.List.{flat_map};
ghost use Rattle.block_list.specs.Stretches.{covered, IsStretchAt};
ghost use Rattle.paged_blocks.specs.Paging.{flat, IsPaging, IsHeld};

use crate::entry_list::Entries;
use crate::search::by_position::held_before;
use block_list::block::Block;
use block_list::near::Near;
use block_pages::page::Page;

/// Whether the block at a place holds a position.
fn is_held_by(pages: &[Page], entries: &Entries, near: Near, x: u64) -> bool
    requires { IsPaging pages.now entries.now.items }
    ensures { result ≡ true → IsHeld pages.now entries.now.items (x + 1) near.page (near.block + 1) }
{
    if near.page >= entries.len() {
        return false;
    }
    let page = &pages[entries.at(near.page).page];
    if near.block >= page.len() {
        return false;
    }
    let block = page.block(near.block);
    if x < block.pos {
        return false;
    }
    x - block.pos < block.size
}

/// The block after another, which may be the first of the next page.
fn after(entries: &Entries, near: Near) -> Near {
    if near.page < entries.len() && near.block < entries.at(near.page).len {
        let block = near.block + 1;
        if block < entries.at(near.page).len {
            return Near {
                page: near.page,
                block,
            };
        }
        return Near {
            page: near.page + 1,
            block: 0,
        };
    }
    near
}

/// Where the block that holds a position is. It looks first at one block and at the one after it.
pub fn held_near(pages: &[Page], entries: &Entries, near: Near, x: u64) -> Near
    requires paging { IsPaging pages.now entries.now.items }
    requires within { x < length (flat_map covered (flat pages.now entries.now.items)) }
    ensures { IsHeld pages.now entries.now.items (x + 1) result.page (result.block + 1) }
{
    if is_held_by(pages, entries, near, x) {
        return near;
    }
    let next = after(entries, near);
    if is_held_by(pages, entries, next, x) {
        return next;
    }
    let (page, begun) = held_before(pages, entries, x + 1);
    Near {
        page,
        block: begun - 1,
    }
}

/// The stretch of equal statuses that holds a position, and where it is.
pub fn stretch_near(pages: &[Page], entries: &Entries, near: &mut Near, x: u64) -> Block
    requires paging { IsPaging pages.now entries.now.items }
    requires within { x < length (flat_map covered (flat pages.now entries.now.items)) }
    ensures { IsStretchAt (flat_map covered (flat pages.now entries.now.items)) x result }
{
    let held = held_near(pages, entries, *near, x);
    *near = held;
    pages[entries.at(held.page).page].block(held.block)
}
