//! How a list of blocks is cut into pages, and a page of a part of a plain list.
ghost use Rattle.std.specs.Prelude.{◌≡◌, ◌+◌, ◌<◌, ◌≤◌, ◌^◌, length, slice_range};
ghost use Rattle.block_list.specs.Stretches.{stretches};

use crate::page::Page;
use block_list::tiles::Tiles;
use plain_blocks::plain_tiles::PlainTiles;

/// How many blocks the next page takes if some are left: as many as it holds, but the last two share what
/// is left for them evenly.
pub fn page_len(left: usize) -> usize
    requires { 0 < left }
    ensures some { 0 < result }
    ensures within { result ≤ left }
    ensures fits { result ≤ 64 }
    ensures all { left ≤ 64 → result ≡ left }
    ensures half { 64 < left → 32 ≤ result }
    ensures rest { 64 < left → result + 32 ≤ left }
    ensures full { 64 + result < left → result ≡ 64 }
{
    if left <= 64 {
        left
    } else if left < 128 {
        left / 2
    } else {
        64
    }
}

/// A page with the stretches of a map from one index up to another.
pub fn page_of(tiles: &PlainTiles, from: usize, to: usize) -> Page
    requires order { from ≤ to }
    requires within { to ≤ length (stretches tiles.now.statuses) }
    requires fits { to ≤ from + 64 }
    requires short { length tiles.now.statuses < 2 ^ 63 }
    ensures { result ≡ slice_range (stretches tiles.now.statuses) from to }
{
    let mut page = Page::new();
    for i in from..to {
        page.push(tiles.block(i));
    }
    page
}
