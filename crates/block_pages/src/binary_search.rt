//! Binary searches for a position.
ghost use Rattle.std.specs.Prelude.{◌≡◌, ℕ, ◌+◌, ◌<◌, ◌≤◌, ◌^◌, length, slice_index_or};
ghost use Rattle.std.specs.List.Sorted.{IsNonDecreasingBy};
ghost use Rattle.block_pages.specs.Search.{IsSearched};

use crate::steps::Steps;
use std::sync::ledger::Ledger;

/// What begins at a position.
pub trait Positioned {
    /// The position.
    ghost begin: { Self → ℕ };

    /// The position at which it begins.
    fn pos(&self) -> u64
        ensures { result ≡ begin self.now };
}

/// The index of the last item that begins before a position, as the first one must. A search by halves, which looks at
/// one item in each.
pub fn last_before<X: Positioned, L: Ledger>(xs: &[X], at: u64, steps: &mut Steps<L>) -> usize
    requires sorted { IsNonDecreasingBy X.begin xs.now }
    requires some { 0 < length xs.now }
    requires first { (d : X) → X.begin (slice_index_or xs.now 0 d) < at }
    ensures place { IsSearched X.begin xs.now at (result + 1) }
    ensures few { steps.new ≤ steps.old + 64 }
    ensures cost { (n : ℕ) → length xs.now ≤ 2 ^ n → steps.new ≤ steps.old + n }
{
    let mut last = 0;
    let mut end = xs.len();
    while last + 1 < end {
        let middle = last + (end - last) / 2;
        steps.tick();
        if xs[middle].pos() < at {
            last = middle;
        } else {
            end = middle;
        }
    }
    last
}
