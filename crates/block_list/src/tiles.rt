//! What a map can be asked and told, whatever its form.
ghost use Rattle.std.specs.Prelude.{◌≡◌, ℕ, ◌+◌, ◌<◌, ◌≤◌, ◌^◌, List, length, slice_get, Some, OnOk, IfSome, IfNone, count_by};
ghost use Rattle.block_list.specs.declared.status.Status.{Status};
ghost use Rattle.block_list.specs.Status.{same};
ghost use Rattle.block_list.specs.Places.{IsFirst, IsLast, IsRangeUp, IsRangeDown};
ghost use Rattle.block_list.specs.Map.{Has, marked, extended};
ghost use Rattle.block_list.specs.Stretches.{stretches, IsStretchAt};

use crate::block::{Block, Range};
use crate::near::Near;
use crate::status::Status;
use std::alloc::{AllocError, AllocFailed};

/// There wasn't enough memory.
#[derive(Clone, Copy, Debug, PartialEq, Eq)]
pub struct NoMemory;

impl From<AllocError> for NoMemory {
    fn from(_error: AllocError) -> NoMemory {
        NoMemory
    }
}

impl<T: Drop> From<AllocFailed<T>> for NoMemory {
    fn from(_failed: AllocFailed<T>) -> NoMemory {
        NoMemory
    }
}

/// A map of fewer than 2^63 positions, with spare: how many more blocks it holds without asking for memory.
pub trait Tiles: Drop {
    /// The statuses of the positions from 0 on.
    ghost statuses: { Self → List Status };

    /// The number of blocks that there is room for.
    ghost spare: { Self → ℕ };

    /// The position past the last one.
    fn end(&self) -> u64
        ensures end { result ≡ length (statuses self.now) }
        ensures short { result < 2 ^ 63 };

    /// The status of a position.
    fn at(&self, x: u64) -> Status
        requires { x < length (statuses self.now) }
        ensures { Has (statuses self.now) result x };

    /// The stretch of equal statuses that holds a position.
    fn stretch_at(&self, x: u64) -> Block
        requires { x < length (statuses self.now) }
        ensures { IsStretchAt (statuses self.now) x result };

    /// `stretch_at`, which looks first at `near` and right after it, and then has `near` say where that stretch is. So
    /// a walk upwards from stretch to stretch takes a few steps for each.
    fn stretch_near(&self, near: &mut Near, x: u64) -> Block
        requires { x < length (statuses self.now) }
        ensures { IsStretchAt (statuses self.now) x result };

    /// The first position at or after `from` that has a status, and the end of its stretch of equal statuses.
    fn find_forward(&self, from: u64, status: Status) -> Option<Range>
        ensures first { IfSome result (λ range. IsFirst (Has (statuses self.now) status) from range.from) }
        ensures range { IfSome result (λ range. IsRangeUp (Has (statuses self.now) status) range.from range.to) }
        ensures none { IfNone result ((x : ℕ) → from ≤ x → Has (statuses self.now) status x → ⊥) };

    /// The greatest end at or before `before` below which a position has a status, and the start of its stretch.
    fn find_backward(&self, before: u64, status: Status) -> Option<Range>
        ensures last { IfSome result (λ range. IsLast (Has (statuses self.now) status) before range.to) }
        ensures range { IfSome result (λ range. IsRangeDown (Has (statuses self.now) status) range.from range.to) }
        ensures none { IfNone result ((x : ℕ) → x < before → Has (statuses self.now) status x → ⊥) };

    /// How many positions have a status.
    fn count(&self, status: Status) -> u64
        ensures { result ≡ count_by (λ s. same s status) (statuses self.now) };

    /// Makes spare at least n. It alone takes memory.
    fn reserve(&mut self, n: usize) -> Result<(), NoMemory>
        ensures spare { OnOk result (n ≤ spare self.new) }
        ensures kept { spare self.old ≤ spare self.new }
        ensures statuses { statuses self.new ≡ statuses self.old };

    /// Gives a status to the positions from `pos` up to `pos + size`.
    fn set(&mut self, pos: u64, size: u64, status: Status)
        requires some { 0 < size }
        requires within { pos + size ≤ length (statuses self.old) }
        requires spare { 2 ≤ spare self.old }
        ensures marked { statuses self.new ≡ marked (statuses self.old) pos size status }
        ensures spare { spare self.old ≤ spare self.new + 2 };

    /// Adds non-tried positions up to an end.
    fn extend_to(&mut self, end: u64)
        requires later { length (statuses self.old) ≤ end }
        requires short { end < 2 ^ 63 }
        requires spare { 1 ≤ spare self.old }
        ensures extended { statuses self.new ≡ extended (statuses self.old) end }
        ensures spare { spare self.old ≤ spare self.new + 1 };

    /// How many stretches of equal statuses there are.
    fn blocks(&self) -> usize
        ensures { result ≡ length (stretches (statuses self.now)) };

    /// The stretch with a number, counted from 0.
    fn block(&self, i: usize) -> Block
        requires { i < length (stretches (statuses self.now)) }
        ensures { slice_get (stretches (statuses self.now)) i ≡ Some result };
}
