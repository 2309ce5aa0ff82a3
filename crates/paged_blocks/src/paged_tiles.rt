//! The map of a rescue: a plain list of a few blocks, or a map in pages.
ghost use Rattle.std.specs.Prelude.{◌≡◌, ℕ, ◌+◌, ◌-◌, ◌/◌, ◌<◌, ◌≤◌, length, OnOk, IfOk, IfSome, IfNone};
ghost use Rattle.block_list.specs.Map.{Has};
ghost use Rattle.block_list.specs.Places.{IsFirst, IsLast, IsRangeUp, IsRangeDown};
ghost use Rattle.block_list.specs.Stretches.{stretches};

use crate::page_tree::Pages;
use crate::short_list;
use block_list::block::{Block, Range};
use block_list::near::Near;
use block_list::status::Status;
use block_list::tiles::{NoMemory, Tiles};
use block_pages::steps::Steps;
use plain_blocks::plain_tiles::PlainTiles;
use std::alloc::Global;
use std::marker::{Brand, Model};
use std::sync::ledger::{Blank, Ledger};

/// A few blocks as a plain list, whose edits move fewest, or many in pages.
#[derive(Drop)]
enum Form {
    Few(PlainTiles),
    Many(Pages),
}

/// A map as a plain list while it has few blocks, and in pages from then on.
#[derive(Drop)]
pub struct PagedTiles {
    form: Form,
    alloc: Global,
}

impl Model for PagedTiles {
    ghost use Rattle.block_list.specs.Tiled.{Tiled};

    ghost Value = { Tiled };

    ghost use Rattle.paged_blocks.specs.Forms.{shown, IsFormed};

    ghost view = { λ t. shown t.form };

    ghost invariant = { λ t. IsFormed t.form };
}

impl PagedTiles {
    /// The map of a plain list.
    pub fn from_plain(alloc: Global, tiles: &PlainTiles) -> Result<PagedTiles, NoMemory>
        ensures { IfOk result (λ t. t.statuses ≡ tiles.now.statuses) }
    {
        let form = if tiles.blocks() <= short_list::FEW {
            Form::Few(short_list::copied(alloc, tiles)?)
        } else {
            Form::Many(Pages::from_plain(alloc, tiles)?)
        };
        Ok(PagedTiles { form, alloc })
    }
}

/// The map of a plain list in pages, with room for n more blocks.
#[cold]
#[inline(never)]
fn paged(alloc: Global, tiles: &PlainTiles, n: usize) -> Result<Pages, NoMemory>
    ensures statuses { IfOk result (λ t. t.statuses ≡ tiles.now.statuses) }
    ensures spare { IfOk result (λ t. n ≤ t.spare) }
{
    let mut pages = Pages::from_plain(alloc, tiles)?;
    pages.reserve(n)?;
    Ok(pages)
}

impl PagedTiles {
    /// `reserve` of more than there is, in pages: a plain list is put into them first.
    #[cold]
    #[inline(never)]
    fn reserve_pages(&mut self, n: usize) -> Result<(), NoMemory>
        requires more { self.old.spare < n }
        ensures spare { OnOk result (n ≤ self.new.spare) }
        ensures kept { self.old.spare ≤ self.new.spare }
        ensures statuses { self.new.statuses ≡ self.old.statuses }
    {
        match &mut self.form {
            Form::Few(tiles) => {
                let pages = paged(self.alloc, tiles, n)?;
                self.form = Form::Many(pages);
                Ok(())
            }
            Form::Many(pages) => pages.reserve(n),
        }
    }

    /// `find_forward`, with its steps counted.
    #[inline(always)]
    pub fn find_forward_counted<L: Ledger>(
        &self,
        from: u64,
        status: Status,
        steps: &mut Steps<L>,
    ) -> Option<Range>
        ensures first { IfSome result (λ range. IsFirst (Has self.now.statuses status) from range.from) }
        ensures range { IfSome result (λ range. IsRangeUp (Has self.now.statuses status) range.from range.to) }
        ensures none { IfNone result ((x : ℕ) → from ≤ x → Has self.now.statuses status x → ⊥) }
        ensures cost { steps.new ≤ steps.old + length (stretches self.now.statuses) / 16 + 130 }
        ensures there { Has self.now.statuses status from → steps.new ≤ steps.old + 130 }
    {
        match &self.form {
            Form::Few(tiles) => short_list::first_with(tiles, from, status, steps),
            Form::Many(pages) => pages.find_forward(from, status, steps),
        }
    }

    /// `find_backward`, with its steps counted.
    pub fn find_backward_counted<L: Ledger>(
        &self,
        before: u64,
        status: Status,
        steps: &mut Steps<L>,
    ) -> Option<Range>
        ensures last { IfSome result (λ range. IsLast (Has self.now.statuses status) before range.to) }
        ensures range { IfSome result (λ range. IsRangeDown (Has self.now.statuses status) range.from range.to) }
        ensures none { IfNone result ((x : ℕ) → x < before → Has self.now.statuses status x → ⊥) }
        ensures cost { steps.new ≤ steps.old + length (stretches self.now.statuses) / 16 + 130 }
        ensures there { Has self.now.statuses status (before - 1) → steps.new ≤ steps.old + 130 }
    {
        match &self.form {
            Form::Few(tiles) => short_list::last_with(tiles, before, status, steps),
            Form::Many(pages) => pages.find_backward(before, status, steps),
        }
    }

    /// `find_forward_counted`, in a new ledger that nobody reads.
    #[inline(always)]
    fn find_forward_uncounted<L: Ledger>(
        &self,
        from: u64,
        status: Status,
        blank: Blank,
    ) -> Option<Range>
        requires name { blank.name ≡ L.name }
        requires parts { blank.parts ≡ L.parts }
        requires one { 0 < blank.parts }
        ensures first { IfSome result (λ range. IsFirst (Has self.now.statuses status) from range.from) }
        ensures range { IfSome result (λ range. IsRangeUp (Has self.now.statuses status) range.from range.to) }
        ensures none { IfNone result ((x : ℕ) → from ≤ x → Has self.now.statuses status x → ⊥) }
    {
        let mut steps = Steps::<L>::new(blank);
        self.find_forward_counted(from, status, &mut steps)
    }

    /// `find_backward_counted`, in a new ledger that nobody reads.
    fn find_backward_uncounted<L: Ledger>(
        &self,
        before: u64,
        status: Status,
        blank: Blank,
    ) -> Option<Range>
        requires name { blank.name ≡ L.name }
        requires parts { blank.parts ≡ L.parts }
        requires one { 0 < blank.parts }
        ensures last { IfSome result (λ range. IsLast (Has self.now.statuses status) before range.to) }
        ensures range { IfSome result (λ range. IsRangeDown (Has self.now.statuses status) range.from range.to) }
        ensures none { IfNone result ((x : ℕ) → x < before → Has self.now.statuses status x → ⊥) }
    {
        let mut steps = Steps::<L>::new(blank);
        self.find_backward_counted(before, status, &mut steps)
    }
}

impl Tiles for PagedTiles {
    ghost statuses = { λ t. t.statuses };

    ghost spare = { λ t. t.spare };

    fn end(&self) -> u64 {
        match &self.form {
            Form::Few(tiles) => tiles.end(),
            Form::Many(pages) => pages.end(),
        }
    }

    fn at(&self, x: u64) -> Status {
        self.stretch_at(x).status
    }

    fn stretch_at(&self, x: u64) -> Block {
        match &self.form {
            Form::Few(tiles) => tiles.stretch_at(x),
            Form::Many(pages) => pages.stretch_at(x),
        }
    }

    fn stretch_near(&self, near: &mut Near, x: u64) -> Block {
        match &self.form {
            Form::Few(tiles) => tiles.stretch_near(near, x),
            Form::Many(pages) => pages.stretch_near(near, x),
        }
    }

    #[inline(always)]
    fn find_forward(&self, from: u64, status: Status) -> Option<Range> {
        self.find_forward_uncounted::<Brand>(from, status, Blank::new(1))
    }

    fn find_backward(&self, before: u64, status: Status) -> Option<Range> {
        self.find_backward_uncounted::<Brand>(before, status, Blank::new(1))
    }

    fn count(&self, status: Status) -> u64 {
        match &self.form {
            Form::Few(tiles) => tiles.count(status),
            Form::Many(pages) => pages.count(status),
        }
    }

    #[inline(always)]
    fn reserve(&mut self, n: usize) -> Result<(), NoMemory> {
        match &mut self.form {
            Form::Few(tiles) => {
                if n <= short_list::FEW && tiles.blocks() <= short_list::FEW - n {
                    return tiles.reserve(n);
                }
            }
            Form::Many(pages) => return pages.reserve(n),
        }
        self.reserve_pages(n)
    }

    #[inline(always)]
    fn set(&mut self, pos: u64, size: u64, status: Status) {
        match &mut self.form {
            Form::Few(tiles) => tiles.set(pos, size, status),
            Form::Many(pages) => pages.set(pos, size, status),
        }
    }

    fn extend_to(&mut self, end: u64) {
        match &mut self.form {
            Form::Few(tiles) => tiles.extend_to(end),
            Form::Many(pages) => pages.extend_to(end),
        }
    }

    fn blocks(&self) -> usize {
        match &self.form {
            Form::Few(tiles) => tiles.blocks(),
            Form::Many(pages) => pages.blocks(),
        }
    }

    fn block(&self, i: usize) -> Block {
        match &self.form {
            Form::Few(tiles) => tiles.block(i),
            Form::Many(pages) => pages.block(i),
        }
    }
}
