//! A map as a tree of two levels: a list of entries, and pages.
ghost use Rattle.std.specs.Prelude.{◌≡◌, ℕ, ◌+◌, ◌-◌, ◌/◌, ◌<◌, ◌≤◌, ◌^◌, length, slice_get, count_by, Some, OnOk, IfOk, IfSome, IfNone};
ghost use Rattle.std.specs.List.{flat_map};
ghost use Rattle.block_list.specs.Stretches.{covered, stretches, IsStretchAt};
ghost use Rattle.block_list.specs.declared.status.Status.{Status};
ghost use Rattle.block_list.specs.Status.{same};
ghost use Rattle.block_list.specs.Map.{Has, marked, extended};
ghost use Rattle.block_list.specs.Places.{IsFirst, IsLast, IsRangeUp, IsRangeDown};
ghost use Rattle.paged_blocks.specs.Paging.{IsAdded};

use crate::entry_list::Entries;
use crate::marks::overwrite::overwrite;
use crate::search::{by_position, by_status, near};
use crate::{counts, room};
use block_list::block::{Block, Range};
use block_list::near::Near;
use block_list::status::Status;
use block_list::tiles::{NoMemory, Tiles};
use block_pages::page::Page;
use block_pages::page_entry::entry_of;
use block_pages::page_from_list::{page_len, page_of};
use block_pages::steps::Steps;
use plain_blocks::plain_tiles::PlainTiles;
use std::alloc::Global;
use std::marker::Model;
use std::sync::ledger::Ledger;

/// A map as pages of at most 64 blocks and a list of their places.
// The end is where a plain list has its own, so that a map of either form reads it alike.
#[derive(Drop)]
pub struct Pages {
    pages: Vec<Page>,
    end: u64,
    entries: Entries,
    free: Vec<usize>,
}

impl Model for Pages {
    ghost use Rattle.std.specs.List.{flat_map};
    ghost use Rattle.block_list.specs.Tiled.{Tiled};
    ghost use Rattle.block_list.specs.Stretches.{covered};

    ghost Value = { Tiled };

    ghost use Rattle.paged_blocks.specs.Paging.{flat};
    ghost use Rattle.paged_blocks.specs.PageTree.{IsPaged, spare_of};

    ghost view = { λ t.
        record { statuses = flat_map covered (flat t.pages.items t.entries.items); spare = spare_of t } };

    ghost invariant = { IsPaged };
}

/// Puts a page after the others. If memory wasn't there, an entry may have been added without its page.
fn add(pages: &mut Vec<Page>, entries: &mut Entries, page: Page) -> Result<(), NoMemory>
    requires some { 0 < length page }
    requires short { length (flat_map covered page) < 2 ^ 63 }
    ensures { OnOk result (IsAdded pages.old.items entries.old.items page pages.new.items entries.new.items) }
{
    let entry = entry_of(pages.len(), &page);
    entries.reserve(1)?;
    entries.insert(entries.len(), entry);
    Ok(pages.push(page)?)
}

impl Pages {
    /// The map of a plain list, in pages that are full except the last two.
    pub fn from_plain(alloc: Global, tiles: &PlainTiles) -> Result<Pages, NoMemory>
        ensures { IfOk result (λ t. t.statuses ≡ tiles.now.statuses) }
    {
        let end = tiles.end();
        let blocks = tiles.blocks();
        let mut pages = Vec::new(alloc);
        let mut entries = Entries::new(alloc);
        let count = blocks.div_ceil(64);
        pages.reserve(count)?;
        entries.reserve(count)?;
        let mut made = 0;
        while made < blocks {
            let to = made + page_len(blocks - made);
            add(&mut pages, &mut entries, page_of(tiles, made, to))?;
            made = to;
        }
        let mut free = Vec::new(alloc);
        free.reserve(pages.len())?;
        Ok(Pages {
            pages,
            end,
            entries,
            free,
        })
    }
}

impl Pages {
    /// The position past the last one.
    pub fn end(&self) -> u64
        ensures end { result ≡ length self.now.statuses }
        ensures short { result < 2 ^ 63 }
    {
        self.end
    }

    /// The stretch of equal statuses that holds a position.
    pub fn stretch_at(&self, x: u64) -> Block
        requires { x < length self.now.statuses }
        ensures { IsStretchAt self.now.statuses x result }
    {
        by_position::stretch_at(&self.pages, &self.entries, x)
    }

    /// `stretch_at`, which looks at `near` first, and has it say where that stretch is.
    pub fn stretch_near(&self, near: &mut Near, x: u64) -> Block
        requires { x < length self.now.statuses }
        ensures { IsStretchAt self.now.statuses x result }
    {
        near::stretch_near(&self.pages, &self.entries, near, x)
    }

    /// The first position at or after `from` that has a status, and the end of its stretch. Its steps are counted.
    #[inline(always)]
    pub fn find_forward<L: Ledger>(
        &self,
        from: u64,
        status: Status,
        steps: &mut Steps<L>,
    ) -> Option<Range>
        ensures first { IfSome result (λ range. IsFirst (Has self.now.statuses status) from range.from) }
        ensures range { IfSome result (λ range. IsRangeUp (Has self.now.statuses status) range.from range.to) }
        ensures none { IfNone result ((x : ℕ) → from ≤ x → Has self.now.statuses status x → ⊥) }
        ensures cost { steps.new ≤ steps.old + length (stretches self.now.statuses) / 16 + 130 }
        ensures there { Has self.now.statuses status from → steps.new ≤ steps.old + 130 }
    {
        if from < self.end {
            by_status::first_with(&self.pages, &self.entries, from, status, steps)
        } else {
            None
        }
    }

    /// The greatest end at or before `before` below which a position has a status, and the start of its stretch. Its
    /// steps are counted.
    pub fn find_backward<L: Ledger>(
        &self,
        before: u64,
        status: Status,
        steps: &mut Steps<L>,
    ) -> Option<Range>
        ensures last { IfSome result (λ range. IsLast (Has self.now.statuses status) before range.to) }
        ensures range { IfSome result (λ range. IsRangeDown (Has self.now.statuses status) range.from range.to) }
        ensures none { IfNone result ((x : ℕ) → x < before → Has self.now.statuses status x → ⊥) }
        ensures cost { steps.new ≤ steps.old + length (stretches self.now.statuses) / 16 + 130 }
        ensures there { Has self.now.statuses status (before - 1) → steps.new ≤ steps.old + 130 }
    {
        let to = before.min(self.end);
        by_status::last_with(&self.pages, &self.entries, to, status, steps)
    }

    /// How many positions have a status.
    pub fn count(&self, status: Status) -> u64
        ensures { result ≡ count_by (λ s. same s status) self.now.statuses }
    {
        counts::count(&self.pages, &self.entries, status)
    }

    /// How many stretches of equal statuses there are.
    pub fn blocks(&self) -> usize
        ensures { result ≡ length (stretches self.now.statuses) }
    {
        counts::blocks(&self.pages, &self.entries)
    }

    /// The stretch with a number, counted from 0.
    pub fn block(&self, i: usize) -> Block
        requires { i < length (stretches self.now.statuses) }
        ensures { slice_get (stretches self.now.statuses) i ≡ Some result }
    {
        counts::block_at(&self.pages, &self.entries, i)
    }
}

impl Pages {
    /// Makes spare at least n. It alone takes memory.
    #[inline(never)]
    pub fn reserve(&mut self, n: usize) -> Result<(), NoMemory>
        ensures spare { OnOk result (n ≤ self.new.spare) }
        ensures kept { self.old.spare ≤ self.new.spare }
        ensures statuses { self.new.statuses ≡ self.old.statuses }
    {
        room::reserve(&mut self.pages, &mut self.entries, &mut self.free, n)
    }

    /// Gives a status to the positions from `pos` up to `pos + size`.
    #[inline(never)]
    pub fn set(&mut self, pos: u64, size: u64, status: Status)
        requires some { 0 < size }
        requires within { pos + size ≤ length self.old.statuses }
        requires spare { 2 ≤ self.old.spare }
        ensures marked { self.new.statuses ≡ marked self.old.statuses pos size status }
        ensures spare { self.old.spare ≤ self.new.spare + 2 }
    {
        let block = Block { pos, size, status };
        // A read that fails again leaves the map as it was.
        if by_position::is_marked(&self.pages, &self.entries, block) {
            return;
        }
        overwrite(
            &mut self.pages,
            &mut self.entries,
            &mut self.free,
            self.end,
            block,
        );
    }

    /// Adds non-tried positions up to an end.
    pub fn extend_to(&mut self, end: u64)
        requires later { length self.old.statuses ≤ end }
        requires short { end < 2 ^ 63 }
        requires spare { 1 ≤ self.old.spare }
        ensures extended { self.new.statuses ≡ extended self.old.statuses end }
        ensures spare { self.old.spare ≤ self.new.spare + 1 }
    {
        if self.end < end {
            let block = Block {
                pos: self.end,
                size: end - self.end,
                status: Status::NonTried,
            };
            overwrite(
                &mut self.pages,
                &mut self.entries,
                &mut self.free,
                self.end,
                block,
            );
            self.end = end;
        }
    }
}
