//! The entries of the pages, in the order of the map.
ghost use Rattle.std.specs.Prelude.{◌≡◌, ℕ, ◌+◌, ◌<◌, ◌≤◌, ◌^◌, [], ◌++◌, length, take, drop, slice_set, slice_index_or, min, reverse, vec_len, vec_capacity, OnOk};
ghost use Rattle.std.specs.List.{insert};
ghost use Rattle.std.specs.List.Sorted.{IsNonDecreasingBy};
ghost use Rattle.block_pages.specs.declared.page_entry.PageEntry.{PageEntry};
ghost use Rattle.block_pages.specs.Search.{IsSearched};

use block_list::tiles::NoMemory;
use block_pages::page_entry::PageEntry;
use block_pages::steps::Steps;
use std::alloc::Global;
use std::marker::Model;
use std::sync::ledger::Ledger;

/// Entries with a gap where one was last put in or taken out, so that few move if changes are near each other. The
/// entries after the gap are kept last first.
#[derive(Drop)]
pub struct Entries {
    front: Vec<PageEntry>,
    back: Vec<PageEntry>,
}

impl Model for Entries {
    ghost use Rattle.paged_blocks.specs.EntryList.{EntryList, HasRoomForAll, listed_entries};

    ghost Value = { EntryList };

    ghost view = { listed_entries };

    ghost invariant = { HasRoomForAll };
}

impl Entries {
    /// No entry.
    pub fn new(alloc: Global) -> Entries
        ensures { result.items ≡ [] }
    {
        Entries {
            front: Vec::new(alloc),
            back: Vec::new(alloc),
        }
    }

    /// The number of entries.
    pub fn len(&self) -> usize
        ensures { result ≡ length self.now.items }
    {
        self.front.len() + self.back.len()
    }

    /// For how many entries there is room.
    pub fn room(&self) -> usize
        ensures value { result ≡ self.now.room }
        ensures fits { length self.now.items ≤ result }
    {
        self.front.capacity().min(self.back.capacity())
    }

    /// The entry with an index.
    pub fn at(&self, k: usize) -> PageEntry
        requires { k < length self.now.items }
        ensures { (d : PageEntry) → result ≡ slice_index_or self.now.items k d }
    {
        let front = self.front.len();
        if k < front {
            self.front[k]
        } else {
            self.back[self.back.len() - 1 - (k - front)]
        }
    }

    /// The index of the last entry that begins before a position, as the first one must. A search by halves, which
    /// looks at one entry in each.
    pub fn last_before<L: Ledger>(&self, at: u64, steps: &mut Steps<L>) -> usize
        requires sorted { IsNonDecreasingBy (λ (e : PageEntry). e.pos) self.now.items }
        requires some { 0 < length self.now.items }
        requires first { (d : PageEntry) → (slice_index_or self.now.items 0 d).pos < at }
        ensures place { IsSearched (λ (e : PageEntry). e.pos) self.now.items at (result + 1) }
        ensures few { steps.new ≤ steps.old + 64 }
        ensures cost { (n : ℕ) → length self.now.items ≤ 2 ^ n → steps.new ≤ steps.old + n }
    {
        let mut last = 0;
        let mut end = self.len();
        while last + 1 < end {
            let middle = last + (end - last) / 2;
            steps.tick();
            if self.at(middle).pos < at {
                last = middle;
            } else {
                end = middle;
            }
        }
        last
    }

    /// Writes another entry in the place of the one with an index.
    pub fn put(&mut self, k: usize, entry: PageEntry)
        requires { k < length self.old.items }
        ensures items { self.new.items ≡ slice_set self.old.items k entry }
        ensures room { self.new.room ≡ self.old.room }
    {
        let front = self.front.len();
        if k < front {
            self.front[k] = entry;
        } else {
            let past = self.back.len() - 1 - (k - front);
            self.back[past] = entry;
        }
    }

    /// Makes room for n more entries.
    pub fn reserve(&mut self, n: usize) -> Result<(), NoMemory>
        ensures items { self.new.items ≡ self.old.items }
        ensures room { OnOk result (length self.old.items + n ≤ self.new.room) }
        ensures kept { self.old.room ≤ self.new.room }
    {
        let front = n.checked_add(self.back.len()).ok_or(NoMemory)?;
        let back = n.checked_add(self.front.len()).ok_or(NoMemory)?;
        self.front.reserve(front)?;
        Ok(self.back.reserve(back)?)
    }

    /// Puts an entry before the one with an index.
    pub fn insert(&mut self, k: usize, entry: PageEntry)
        requires index { k ≤ length self.old.items }
        requires room { length self.old.items < self.old.room }
        ensures items { self.new.items ≡ insert self.old.items k entry }
        ensures room { self.old.room ≤ self.new.room }
    {
        part(&mut self.front, &mut self.back, k);
        // There is room, so this takes no memory and succeeds.
        let _ = self.front.push(entry);
    }

    /// Takes out the entries from one index up to another.
    pub fn take_out(&mut self, first: usize, past: usize)
        requires order { first ≤ past }
        requires within { past ≤ length self.old.items }
        ensures items { self.new.items ≡ take first self.old.items ++ drop past self.old.items }
        ensures room { self.old.room ≤ self.new.room }
    {
        part(&mut self.front, &mut self.back, past);
        self.front.truncate(first);
    }
}

/// Makes the front end and the back begin at an index.
fn part(front: &mut Vec<PageEntry>, back: &mut Vec<PageEntry>, k: usize)
    requires index { k ≤ vec_len front.old + vec_len back.old }
    requires fits { vec_len front.old + vec_len back.old ≤ min (vec_capacity front.old) (vec_capacity back.old) }
    ensures front { front.new.items ≡ take k (front.old.items ++ reverse back.old.items) }
    ensures back { reverse back.new.items ≡ drop k (front.old.items ++ reverse back.old.items) }
    ensures front_room { vec_capacity front.old ≤ vec_capacity front.new }
    ensures back_room { vec_capacity back.old ≤ vec_capacity back.new }
{
    let begun = front.len();
    if k < begun {
        pass(front, back, k);
    } else {
        let kept = back.len() - (k - begun);
        pass(back, front, kept);
    }
}

/// Moves the entries from an index on to the end of others, the last one first.
fn pass(from: &mut Vec<PageEntry>, to: &mut Vec<PageEntry>, n: usize)
    requires index { n ≤ vec_len from.old }
    requires room { vec_len from.old + vec_len to.old ≤ vec_capacity to.old + n }
    ensures from { from.new.items ≡ take n from.old.items }
    ensures to { to.new.items ≡ to.old.items ++ reverse (drop n from.old.items) }
    ensures left { vec_capacity from.old ≤ vec_capacity from.new }
    ensures room { vec_capacity to.old ≤ vec_capacity to.new }
{
    for i in (n..from.len()).rev() {
        // There is room, so this takes no memory and succeeds.
        let _ = to.push(from[i]);
    }
    from.truncate(n);
}
