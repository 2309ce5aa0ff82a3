//! How many positions and blocks the pages have, and a block by its number.
ghost use Rattle.std.specs.Prelude.{◌≡◌, ◌+◌, ◌-◌, ◌<◌, length, slice_get, count_by, Some};
ghost use Rattle.std.specs.List.{flat_map};
ghost use Rattle.block_list.specs.Status.{same};
ghost use Rattle.block_list.specs.Stretches.{covered};
ghost use Rattle.paged_blocks.specs.Paging.{flat, IsPaging};

use crate::entry_list::Entries;
use block_list::block::Block;
use block_list::status::Status;
use block_pages::page::Page;

/// The block with an index among those of all pages.
pub fn block_at(pages: &[Page], entries: &Entries, i: usize) -> Block
    requires paging { IsPaging pages.now entries.now.items }
    requires index { i < length (flat pages.now entries.now.items) }
    ensures { slice_get (flat pages.now entries.now.items) i ≡ Some result }
{
    let mut k = 0;
    let mut left = i;
    while entries.at(k).len <= left {
        left -= entries.at(k).len;
        k += 1;
    }
    pages[entries.at(k).page].block(left)
}

/// How many positions have a status.
pub fn count(pages: &[Page], entries: &Entries, status: Status) -> u64
    requires { IsPaging pages.now entries.now.items }
    ensures { result ≡ count_by (λ s. same s status) (flat_map covered (flat pages.now entries.now.items)) }
{
    let mut counted = 0;
    for k in 0..entries.len() {
        counted += entries.at(k).tally.of(status);
    }
    counted
}

/// How many blocks the pages have.
pub fn blocks(pages: &[Page], entries: &Entries) -> usize
    requires { IsPaging pages.now entries.now.items }
    ensures { result ≡ length (flat pages.now entries.now.items) }
{
    let mut blocks = 0;
    for k in 0..entries.len() {
        blocks += entries.at(k).len;
    }
    blocks
}
