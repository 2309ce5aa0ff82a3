//! Where the next positions lie that are left of a domain and have a status, in both directions.
ghost use Rattle.std.specs.Prelude.{ℕ, ◌<◌, ◌≤◌, IfSome, IfNone};
ghost use Rattle.block_list.specs.Places.{IsFirst, IsLast, IsRangeUp, IsRangeDown};
ghost use Rattle.rescue_domain.specs.Live.{lives};
ghost use Rattle.rescue_domain.specs.Search.{IsMarked};

use crate::live::Live;
use block_list::block::Range;
use block_list::status::Status;
use block_list::tiles::Tiles;

/// The first range, at or after a position, of positions left of a domain that have a status.
#[inline(always)]
pub fn find_up<T: Tiles>(live: Live<'_>, tiles: &T, from: u64, status: Status) -> Option<Range>
    ensures first { IfSome result (λ range.
        IsFirst (IsMarked (lives live.entry) (T.statuses tiles.now) status) from range.from) }
    ensures range { IfSome result (λ range.
        IsRangeUp (IsMarked (lives live.entry) (T.statuses tiles.now) status) range.from range.to) }
    ensures none { IfNone result ((x : ℕ) → from ≤ x
        → IsMarked (lives live.entry) (T.statuses tiles.now) status x → ⊥) }
{
    // Nearly always the first part has one.
    let part = live.next_in(from)?;
    let found = tiles.find_forward(part.from, status)?;
    if found.from < part.to {
        return Some(Range {
            from: found.from,
            to: found.to.min(part.to),
        });
    }
    find_further_up(live, tiles, found.from, status)
}

/// The range that `find_up` finds, looked for part by part of the domain.
#[inline(never)]
fn find_further_up<T: Tiles>(live: Live<'_>, tiles: &T, from: u64, status: Status) -> Option<Range>
    ensures first { IfSome result (λ range.
        IsFirst (IsMarked (lives live.entry) (T.statuses tiles.now) status) from range.from) }
    ensures range { IfSome result (λ range.
        IsRangeUp (IsMarked (lives live.entry) (T.statuses tiles.now) status) range.from range.to) }
    ensures none { IfNone result ((x : ℕ) → from ≤ x
        → IsMarked (lives live.entry) (T.statuses tiles.now) status x → ⊥) }
{
    let mut at = from;
    while let Some(part) = live.next_in(at) {
        let found = tiles.find_forward(part.from, status)?;
        if found.from < part.to {
            return Some(Range {
                from: found.from,
                to: found.to.min(part.to),
            });
        }
        at = found.from;
    }
    None
}

/// The last range that ends at or before a position, of positions left of a domain that have a status.
#[inline(always)]
pub fn find_down<T: Tiles>(live: Live<'_>, tiles: &T, before: u64, status: Status) -> Option<Range>
    ensures last { IfSome result (λ range.
        IsLast (IsMarked (lives live.entry) (T.statuses tiles.now) status) before range.to) }
    ensures range { IfSome result (λ range.
        IsRangeDown (IsMarked (lives live.entry) (T.statuses tiles.now) status) range.from range.to) }
    ensures none { IfNone result ((x : ℕ) → x < before
        → IsMarked (lives live.entry) (T.statuses tiles.now) status x → ⊥) }
{
    let mut at = before;
    while let Some(part) = live.last_in(at) {
        let found = tiles.find_backward(part.to, status)?;
        if part.from < found.to {
            return Some(Range {
                from: found.from.max(part.from),
                to: found.to,
            });
        }
        at = found.to;
    }
    None
}
