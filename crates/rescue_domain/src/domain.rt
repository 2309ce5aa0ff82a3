//! The positions that are asked for, as intervals.
ghost use Rattle.std.specs.Prelude.{◌≡◌, ℕ, ◌<◌, ◌≤◌, ◌^◌, min, max, Some, slice_get, length, false, ◌&&◌, nat_lt, option_map, IsTrue, IsOk, IfOk, OnOk, OnErr, IfSome, IfNone};
ghost use Rattle.block_list.specs.declared.block.Range.{Range};
ghost use Rattle.block_list.specs.Places.{IsFirst, IsLast, IsRangeUp, IsRangeDown};
ghost use Rattle.rescue_domain.specs.Domain.{IsIn, is_below, whole_domain, finished_in, in_map, listed_in, IsSize};
ghost use Rattle.rescue_domain.specs.Parts.{covers, AreParts, EndBy};
ghost use Rattle.rescue_domain.specs.Stretch.{IsStretchFrom};

use block_list::block::Range;
use block_list::status::Status;
use block_list::tiles::{NoMemory, Tiles};
use std::alloc::Global;
use std::marker::Model;

/// Positions that are all in a domain, or of which none is.
#[derive(Clone, Copy, Debug, PartialEq, Eq)]
pub struct Stretch {
    /// Whether they are in it.
    pub inside: bool,
    /// Where they end.
    pub to: u64,
}

/// A set of positions, as intervals that ascend with a gap between each two.
#[derive(Drop)]
pub struct Domain {
    parts: Vec<Range>,
}

impl Model for Domain {
    ghost use Rattle.std.specs.Prelude.{List};
    ghost use Rattle.block_list.specs.declared.block.Range.{Range};
    ghost use Rattle.rescue_domain.specs.Parts.{AreParts};

    ghost Value = { List Range };

    ghost view = { λ d. d.parts.items };

    ghost invariant = { λ d. AreParts 0 d.parts.items };
}

impl Domain {
    /// The positions from `pos` on, `size` of them if that is given, and below `limit`; all in bytes. `NoMemory` says
    /// that the memory for one interval wasn't there; a domain of no position takes none.
    pub fn whole(alloc: Global, pos: u64, size: Option<u64>, limit: u64) -> Result<Domain, NoMemory>
        ensures positions { IfOk result (λ d. (x : ℕ) → covers d x ≡ whole_domain pos size limit x) }
        ensures empty { ((x : ℕ) → whole_domain pos size limit x ≡ false) → IsOk result }
    {
        let end = end_of(pos, size, limit);
        let mut parts = Vec::new(alloc);
        if pos < end {
            parts.push(Range { from: pos, to: end })?;
        }
        Ok(Domain { parts })
    }

    /// The positions of `whole`, and of these the ones that are finished in a map, if there is one.
    pub fn within<T: Tiles>(
        alloc: Global,
        pos: u64,
        size: Option<u64>,
        limit: u64,
        map: Option<&T>,
    ) -> Result<Domain, NoMemory>
        ensures { IfOk result (λ d. (x : ℕ) → covers d x
            ≡ in_map (whole_domain pos size limit) (option_map (λ m. T.statuses m.now) map.entry) x) }
    {
        let mut domain = Domain::whole(alloc, pos, size, limit)?;
        if let Some(tiles) = map {
            domain.keep_finished(tiles)?;
        }
        Ok(domain)
    }

    /// Leaves the positions that are finished in a map. It is as before if memory for the intervals of the new set
    /// wasn't there.
    pub fn keep_finished<T: Tiles>(&mut self, tiles: &T) -> Result<(), NoMemory>
        ensures kept { OnOk result ((x : ℕ)
            → covers self.new x ≡ finished_in (covers self.old) (T.statuses tiles.now) x) }
        ensures unchanged { OnErr result (self.new ≡ self.old) }
    {
        self.parts = finished_parts(self, tiles)?;
        Ok(())
    }

    /// Leaves the positions from `first` on and below `end`.
    pub fn keep_listed(&mut self, first: u64, end: u64)
        ensures { (x : ℕ) → covers self.new x ≡ listed_in (covers self.old) first end x }
    {
        self.parts.retain_mut(|part| cut_to(part, first, end));
    }

    /// Whether a position is in the domain.
    pub fn holds(&self, x: u64) -> bool
        ensures { result ≡ covers self.now x }
    {
        match self.next_in(x) {
            Some(range) => range.from == x,
            None => false,
        }
    }

    /// The first position of the domain at or after `from`, and the end of its positions there.
    pub fn next_in(&self, from: u64) -> Option<Range>
        ensures first { IfSome result (λ range. IsFirst (IsIn (covers self.now)) from range.from) }
        ensures range { IfSome result (λ range. IsRangeUp (IsIn (covers self.now)) range.from range.to) }
        ensures none { IfNone result ((x : ℕ) → from ≤ x → IsIn (covers self.now) x → ⊥) }
    {
        let ended = ended_by(&self.parts, from);
        let part = self.parts.get(ended)?;
        Some(Range {
            from: from.max(part.from),
            to: part.to,
        })
    }

    /// The greatest end at or before `before` right below which a position is in the domain, and the start of its
    /// positions there.
    pub fn last_in(&self, before: u64) -> Option<Range>
        ensures last { IfSome result (λ range. IsLast (IsIn (covers self.now)) before range.to) }
        ensures range { IfSome result (λ range. IsRangeDown (IsIn (covers self.now)) range.from range.to) }
        ensures none { IfNone result ((x : ℕ) → x < before → IsIn (covers self.now) x → ⊥) }
    {
        let begun = begun_before(&self.parts, before);
        let part = self.parts[..begun].last()?;
        Some(Range {
            from: part.from,
            to: before.min(part.to),
        })
    }

    /// Whether a position is in the domain, and up to where, below a limit, the positions after it are like it. `near`
    /// says where to look first, and then where this was found. Each value gives the same answer; from stretch to
    /// stretch with one `near` a step takes constant time, and any other one a search by halves.
    pub fn stretch_at(&self, near: &mut usize, x: u64, limit: u64) -> Stretch
        requires { x < limit }
        ensures { IsStretchFrom (covers self.now) x limit result.inside result.to }
    {
        *near = ended_near(&self.parts, *near, x);
        stretch_in(&self.parts, *near, x, limit)
    }

    /// How many positions the domain has.
    pub fn size(&self) -> u64
        ensures count { IsSize (covers self.now) result }
        ensures bound { (x : ℕ) → IsIn (covers self.now) x → x < 2 ^ 64 }
    {
        let mut size = 0;
        for part in &self.parts {
            size += part.to - part.from;
        }
        size
    }
}

/// The end of `size` positions from `pos` on, or of all if that isn't given, but at most `limit`.
pub(crate) fn end_of(pos: u64, size: Option<u64>, limit: u64) -> u64
    ensures below { (x : ℕ) → nat_lt x result ≡ (is_below pos size x && nat_lt x limit) }
    ensures limit { result ≤ limit }
{
    match size {
        Some(size) => limit.min(pos.saturating_add(size)),
        None => limit,
    }
}

/// Cuts an interval to the positions from `first` on and below `end`, and says whether any is left.
fn cut_to(part: &mut Range, first: u64, end: u64) -> bool
    ensures from { part.new.from ≡ max part.old.from first }
    ensures to { part.new.to ≡ min part.old.to end }
    ensures left { result ≡ nat_lt part.new.from part.new.to }
{
    part.from = part.from.max(first);
    part.to = part.to.min(end);
    part.from < part.to
}

/// The intervals of the positions of a domain that are finished in a map.
fn finished_parts<T: Tiles>(domain: &Domain, tiles: &T) -> Result<Vec<Range>, NoMemory>
    ensures apart { IfOk result (λ parts. AreParts 0 parts.items) }
    ensures positions { IfOk result (λ parts. (x : ℕ)
        → covers parts.items x ≡ finished_in (covers domain.now) (T.statuses tiles.now) x) }
{
    let mut parts = Vec::new(*domain.parts.allocator());
    let mut at = 0;
    while let Some(range) = next_finished(domain, tiles, at) {
        parts.push(range)?;
        at = range.to;
    }
    Ok(parts)
}

/// The first positions of a domain, at or after one, that are finished in a map, up to where they end.
fn next_finished<T: Tiles>(domain: &Domain, tiles: &T, from: u64) -> Option<Range>
    ensures first { IfSome result (λ range. IsFirst (IsIn (finished_in (covers domain.now) (T.statuses tiles.now)))
        from range.from) }
    ensures range { IfSome result (λ range. IsRangeUp (IsIn (finished_in (covers domain.now) (T.statuses tiles.now)))
        range.from range.to) }
    ensures none { IfNone result ((x : ℕ) → from ≤ x
        → IsIn (finished_in (covers domain.now) (T.statuses tiles.now)) x → ⊥) }
{
    let mut at = from;
    while let Some(part) = domain.next_in(at) {
        let found = tiles.find_forward(part.from, Status::Finished)?;
        if found.from < part.to {
            return Some(Range {
                from: found.from,
                to: found.to.min(part.to),
            });
        }
        at = found.from;
    }
    None
}

/// How many intervals end at or before a position.
fn ended_by(parts: &[Range], x: u64) -> usize
    requires { AreParts 0 parts.now }
    ensures { EndBy parts.now result x }
{
    parts.partition_point(|part| part.to <= x)
}

/// Whether `count` intervals end at or before a position, and no more.
fn are_ended(parts: &[Range], count: usize, x: u64) -> bool
    requires { AreParts 0 parts.now }
    ensures { IsTrue result → EndBy parts.now count x }
{
    if parts.len() < count {
        return false;
    }
    if 0 < count && x < parts[count - 1].to {
        return false;
    }
    count == parts.len() || x < parts[count].to
}

/// How many intervals end at or before a position; it looks first whether these many do, or one more.
fn ended_near(parts: &[Range], near: usize, x: u64) -> usize
    requires { AreParts 0 parts.now }
    ensures { EndBy parts.now result x }
{
    if are_ended(parts, near, x) {
        return near;
    }
    let next = near.saturating_add(1);
    if are_ended(parts, next, x) {
        return next;
    }
    ended_by(parts, x)
}

/// The stretch from a position on, by how many intervals end at or before it.
fn stretch_in(parts: &[Range], ended: usize, x: u64, limit: u64) -> Stretch
    requires parts { AreParts 0 parts.now }
    requires ended { EndBy parts.now ended x }
    requires limit { x < limit }
    ensures { IsStretchFrom (covers parts.now) x limit result.inside result.to }
{
    let Some(part) = parts.get(ended) else {
        return Stretch {
            inside: false,
            to: limit,
        };
    };
    if part.from <= x {
        Stretch {
            inside: true,
            to: limit.min(part.to),
        }
    } else {
        Stretch {
            inside: false,
            to: limit.min(part.from),
        }
    }
}

/// How many intervals begin before a position.
fn begun_before(parts: &[Range], x: u64) -> usize
    requires { AreParts 0 parts.now }
    ensures index { result ≤ length parts.now }
    ensures begun { (i : ℕ) (part : Range) → i < result → slice_get parts.now i ≡ Some part → part.from < x }
    ensures others { (i : ℕ) (part : Range) → result ≤ i → slice_get parts.now i ≡ Some part → x ≤ part.from }
{
    parts.partition_point(|part| part.from < x)
}
