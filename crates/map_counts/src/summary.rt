//! How much of a domain has some statuses, and how much has each one.
ghost use Rattle.std.specs.Prelude.{◌≡◌, ◌+◌, ◌-◌, ◌<◌, ◌^◌, ◌&&◌, not, length, map, if◌then◌else◌};
ghost use Rattle.std.specs.List.{list_any};
ghost use Rattle.block_list.specs.Status.{same};
ghost use Rattle.rescue_domain.specs.Parts.{covers};
ghost use Rattle.map_counts.specs.At.{IsWithinMap};
ghost use Rattle.block_list.specs.Areas.{count_of};
ghost use Rattle.map_counts.specs.Summary.{all_statuses, count_from, has_one, has_status, summary_of};

use crate::pieces::{DomainPiece, Nearby, piece_at};
use block_list::areas::Count;
use block_list::status::Status;
use block_list::tiles::Tiles;
use rescue_domain::domain::Domain;

/// How many positions a domain has, and how much of it has each status, in the order in which `Status` lists them.
#[derive(Clone, Copy, Debug, PartialEq, Eq)]
pub struct Summary {
    pub domain: u64,
    pub lines: [Count; 5],
}

impl Summary {
    /// How much of a domain has each status in a map.
    pub fn of<T: Tiles>(tiles: &T, domain: &Domain) -> Summary
        requires { IsWithinMap (covers domain.now) (T.statuses tiles.now) }
        ensures { result ≡ summary_of (covers domain.now) (T.statuses tiles.now) }
    {
        Summary {
            domain: domain.size(),
            lines: count_each(tiles, domain),
        }
    }
}

/// How much of one status was counted before a position, and whether the position right before it was counted.
#[derive(Clone, Copy)]
struct Line {
    count: Count,
    begun: bool,
}

/// A line with a piece more, if the piece counts.
fn extended(line: Line, size: u64, counts: bool) -> Line
    requires bytes { line.count.bytes + size < 2 ^ 64 }
    requires areas { line.count.areas + 1 < 2 ^ 64 }
    ensures bytes { result.count.bytes ≡ line.count.bytes + (if counts then size else 0) }
    ensures areas { result.count.areas ≡ line.count.areas + (if counts && not line.begun then 1 else 0) }
    ensures begun { result.begun ≡ counts }
{
    Line {
        count: counted(line.count, size, counts, line.begun),
        begun: counts,
    }
}

/// How much of a domain has each status in a map, by one walk along both.
fn count_each<T: Tiles>(tiles: &T, domain: &Domain) -> [Count; 5]
    ensures { result ≡ map (λ s. count_of (has_status (covers domain.now) (T.statuses tiles.now) s)
        (length (T.statuses tiles.now))) all_statuses }
{
    let end = tiles.end();
    let mut near = Nearby::start();
    let none = Line {
        count: Count { bytes: 0, areas: 0 },
        begun: false,
    };
    let mut non_tried = none;
    let mut non_trimmed = none;
    let mut non_scraped = none;
    let mut bad = none;
    let mut finished = none;
    let mut at = 0;
    while at < end {
        let piece = piece_at(tiles, domain, &mut near, at, end);
        let size = piece.to - at;
        let is_non_tried = has_one(piece, &[Status::NonTried]);
        let is_non_trimmed = has_one(piece, &[Status::NonTrimmed]);
        let is_non_scraped = has_one(piece, &[Status::NonScraped]);
        let is_bad = has_one(piece, &[Status::BadSector]);
        let is_finished = has_one(piece, &[Status::Finished]);
        non_tried = extended(non_tried, size, is_non_tried);
        non_trimmed = extended(non_trimmed, size, is_non_trimmed);
        non_scraped = extended(non_scraped, size, is_non_scraped);
        bad = extended(bad, size, is_bad);
        finished = extended(finished, size, is_finished);
        at = piece.to;
    }
    [
        non_tried.count,
        non_trimmed.count,
        non_scraped.count,
        bad.count,
        finished.count,
    ]
}

/// How much of a domain has one of some statuses in a map, from one position up to another. Of an area its beginning
/// counts, and what lies past the map's end is non-tried.
pub fn count_statuses<T: Tiles>(
    tiles: &T,
    domain: &Domain,
    statuses: &[Status],
    from: u64,
    to: u64,
) -> Count
    ensures { result ≡ count_from (has_one (covers domain.now) (T.statuses tiles.now) statuses.now) from to }
{
    let mut near = Nearby::start();
    let mut count = Count { bytes: 0, areas: 0 };
    // Whether the position right in front of `at` was counted.
    let mut begun = from > 0
        && has_one(piece_at(tiles, domain, &mut near, from - 1, from), statuses);
    let mut at = from;
    while at < to {
        let piece = piece_at(tiles, domain, &mut near, at, to);
        let counts = has_one(piece, statuses);
        count = counted(count, piece.to - at, counts, begun);
        begun = counts;
        at = piece.to;
    }
    count
}

/// Whether the positions of a piece are in the domain and have one of some statuses.
fn has_one(piece: DomainPiece, statuses: &[Status]) -> bool
    ensures { result ≡ (piece.inside && list_any (λ s. same piece.status s) statuses.now) }
{
    piece.inside && is_one(piece.status, statuses)
}

/// Whether a status is one of some.
fn is_one(status: Status, statuses: &[Status]) -> bool
    ensures { result ≡ list_any (λ s. same status s) statuses.now }
{
    let symbol = status.symbol();
    statuses.iter().any(|s| symbol == s.symbol())
}

/// A count with `size` more positions, if they count. They begin an area, unless one is begun already.
fn counted(count: Count, size: u64, counts: bool, begun: bool) -> Count
    requires bytes { count.bytes + size < 2 ^ 64 }
    requires areas { count.areas + 1 < 2 ^ 64 }
    ensures bytes { result.bytes ≡ count.bytes + (if counts then size else 0) }
    ensures areas { result.areas ≡ count.areas + (if counts && not begun then 1 else 0) }
{
    if !counts {
        return count;
    }
    Count {
        bytes: count.bytes + size,
        areas: if begun { count.areas } else { count.areas + 1 },
    }
}
