//! What is left of a domain whose input was found to end.
ghost use Rattle.std.specs.Prelude.{◌≡◌, ℕ, ◌<◌, ◌≤◌, IfSome, IfNone};
ghost use Rattle.block_list.specs.Places.{IsFirst, IsLast, IsRangeUp, IsRangeDown};
ghost use Rattle.rescue_domain.specs.Domain.{IsIn};

use crate::domain::Domain;
use block_list::block::Range;

/// The positions of a domain that lie before an end, if one was met. The domain itself stays, since what was read of it
/// before is still promised.
#[derive(Clone, Copy)]
pub struct Live<'a> {
    pub domain: &'a Domain,
    /// Where the input was found to end, if it was.
    pub over: Option<u64>,
}

impl Live<'_> {
    ghost use Rattle.rescue_domain.specs.Live.{lives};

    /// Whether a position is live: in the domain, and before the end.
    pub fn holds(self, x: u64) -> bool
        ensures { result ≡ lives self.entry x }
    {
        let before = match self.over {
            Some(end) => x < end,
            None => true,
        };
        before && self.domain.holds(x)
    }

    /// The first live position at or after `from`, and the end of the run of live positions that begins there.
    pub fn next_in(self, from: u64) -> Option<Range>
        ensures first { IfSome result (λ range. IsFirst (IsIn (lives self.entry)) from range.from) }
        ensures range { IfSome result (λ range. IsRangeUp (IsIn (lives self.entry)) range.from range.to) }
        ensures none { IfNone result ((x : ℕ) → from ≤ x → IsIn (lives self.entry) x → ⊥) }
    {
        let range = self.domain.next_in(from)?;
        match self.over {
            Some(end) if end <= range.from => None,
            Some(end) => Some(Range {
                from: range.from,
                to: range.to.min(end),
            }),
            None => Some(range),
        }
    }

    /// The greatest end at or before `before` right below which a live position lies, and where the run of live
    /// positions up to that end begins.
    pub fn last_in(self, before: u64) -> Option<Range>
        ensures last { IfSome result (λ range. IsLast (IsIn (lives self.entry)) before range.to) }
        ensures range { IfSome result (λ range. IsRangeDown (IsIn (lives self.entry)) range.from range.to) }
        ensures none { IfNone result ((x : ℕ) → x < before → IsIn (lives self.entry) x → ⊥) }
    {
        let before = match self.over {
            Some(end) => before.min(end),
            None => before,
        };
        self.domain.last_in(before)
    }
}
