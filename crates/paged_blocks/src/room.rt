//! Room for more blocks.
ghost use Rattle.std.specs.Prelude.{◌≡◌, ◌≤◌, length, vec_len, vec_capacity, OnOk};
ghost use Rattle.paged_blocks.specs.Paging.{flat, IsKeptInPages};
ghost use Rattle.paged_blocks.specs.Room.{room_for};

use crate::counts::blocks;
use crate::entry_list::Entries;
use block_list::tiles::NoMemory;
use block_pages::page::Page;

/// Makes pages, and room for their entries, for n more blocks: a page for each, or if that is less, as many as hold all
/// blocks if each is only half full. If enough pages are free it looks at none.
pub fn reserve(
    pages: &mut Vec<Page>,
    entries: &mut Entries,
    free: &mut Vec<usize>,
    n: usize,
) -> Result<(), NoMemory>
    requires kept { IsKeptInPages pages.old.items entries.old.items free.old.items }
    requires room { vec_len pages.old ≤ vec_capacity free.old }
    ensures kept { IsKeptInPages pages.new.items entries.new.items free.new.items }
    ensures flat { flat pages.new.items entries.new.items ≡ flat pages.old.items entries.old.items }
    ensures spare { OnOk result (n ≤ room_for (vec_len pages.new) (entries.new.room) (length entries.old.items)
        (length (flat pages.old.items entries.old.items))) }
    ensures len { length entries.new.items ≡ length entries.old.items }
    ensures more { vec_len pages.old ≤ vec_len pages.new }
    ensures capacity { entries.old.room ≤ entries.new.room }
    ensures room { vec_len pages.new ≤ vec_capacity free.new }
{
    let used = entries.len();
    if n <= free.len() && n <= entries.room() - used {
        return Ok(());
    }
    let mut wanted = used.saturating_add(n);
    // For a few blocks it isn't worth while to count those that there are.
    if n > 32 {
        let halves = blocks(pages, entries).checked_add(n).ok_or(NoMemory)?;
        wanted = wanted.min(halves.div_ceil(32));
    }
    entries.reserve(wanted.saturating_sub(used))?;
    free.reserve(wanted.saturating_sub(free.len()))?;
    add_pages(pages, entries, free, wanted)
}

/// Makes free pages until there is a number of pages.
fn add_pages(
    pages: &mut Vec<Page>,
    entries: &Entries,
    free: &mut Vec<usize>,
    wanted: usize,
) -> Result<(), NoMemory>
    requires kept { IsKeptInPages pages.old.items entries.now.items free.old.items }
    requires room { vec_len pages.old ≤ vec_capacity free.old }
    requires capacity { wanted ≤ vec_capacity free.old }
    ensures kept { IsKeptInPages pages.new.items entries.now.items free.new.items }
    ensures flat { flat pages.new.items entries.now.items ≡ flat pages.old.items entries.now.items }
    ensures made { OnOk result (wanted ≤ vec_len pages.new) }
    ensures more { vec_len pages.old ≤ vec_len pages.new }
    ensures room { vec_len pages.new ≤ vec_capacity free.new }
{
    while pages.len() < wanted {
        let number = pages.len();
        pages.push(Page::new())?;
        // There is room, so this takes no memory and succeeds.
        let _ = free.push(number);
    }
    Ok(())
}
