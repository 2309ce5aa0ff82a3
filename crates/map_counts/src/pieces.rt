//! Walks along a map and a domain, a piece at a time, and the map that a walk makes.
ghost use Rattle.std.specs.Prelude.{◌≡◌, ◌-◌, ◌<◌, ◌≤◌, ◌^◌, ◌++◌, length, replicate, OnOk, OnErr};
ghost use Rattle.block_list.specs.Status.{same};
ghost use Rattle.rescue_domain.specs.Parts.{covers};
ghost use Rattle.rescue_domain.specs.Stretch.{IsConstant};
ghost use Rattle.map_counts.specs.At.{status_at};

use block_list::block::Block;
use block_list::near::Near;
use block_list::status::Status;
use block_list::tiles::{NoMemory, Tiles};
use plain_blocks::plain_tiles::PlainTiles;
use rescue_domain::domain::Domain;

/// Positions up to `to` with the same status.
#[derive(Clone, Copy)]
pub struct Stretch {
    pub to: u64,
    pub status: Status,
}

/// Positions up to `to` with the same status, all of them in a domain, or none.
#[derive(Clone, Copy)]
pub struct DomainPiece {
    pub to: u64,
    pub status: Status,
    pub inside: bool,
}

/// Positions up to `to` of one status in each of two maps, all of them in a domain, or none.
#[derive(Clone, Copy)]
pub struct Pair {
    pub to: u64,
    pub first: Status,
    pub second: Status,
    pub inside: bool,
}

/// Where to look first, in a map and in a domain. It changes no answer; a walk upwards with one of these goes over the
/// stretches of the map and the intervals of the domain once.
#[derive(Clone, Copy)]
pub struct Nearby {
    map: Near,
    part: usize,
}

impl Nearby {
    /// At the first stretch and the first interval.
    pub fn start() -> Nearby {
        Nearby {
            map: Near::start(),
            part: 0,
        }
    }
}

/// Where to look first, in each of two maps and in a domain.
#[derive(Clone, Copy)]
pub struct PairNearby {
    first: Nearby,
    second: Near,
}

impl PairNearby {
    /// At the first stretches and the first interval.
    pub fn start() -> PairNearby {
        PairNearby {
            first: Nearby::start(),
            second: Near::start(),
        }
    }
}

/// The status of a position, and up to where, at most a limit, the positions after it have it too.
pub fn status_from<T: Tiles>(tiles: &T, near: &mut Near, x: u64, limit: u64) -> Stretch
    requires { x < limit }
    ensures stretch { IsConstant (status_at (T.statuses tiles.now)) x result.to result.status }
    ensures limit { result.to ≤ limit }
{
    if tiles.end() <= x {
        return Stretch {
            to: limit,
            status: Status::NonTried,
        };
    }
    let block = tiles.stretch_near(near, x);
    Stretch {
        to: limit.min(block.pos + block.size),
        status: block.status,
    }
}

/// The piece at a position, up to a limit at most.
pub fn piece_at<T: Tiles>(
    tiles: &T,
    domain: &Domain,
    near: &mut Nearby,
    x: u64,
    limit: u64,
) -> DomainPiece
    requires { x < limit }
    ensures status { IsConstant (status_at (T.statuses tiles.now)) x result.to result.status }
    ensures inside { IsConstant (covers domain.now) x result.to result.inside }
    ensures limit { result.to ≤ limit }
{
    let stretch = status_from(tiles, &mut near.map, x, limit);
    let part = domain.stretch_at(&mut near.part, x, stretch.to);
    DomainPiece {
        to: part.to,
        status: stretch.status,
        inside: part.inside,
    }
}

/// The positions from one on, below a limit, that have one status in each of two maps, all of them in a domain, or
/// none.
pub fn pair_at<T: Tiles, U: Tiles>(
    first: &T,
    second: &U,
    domain: &Domain,
    near: &mut PairNearby,
    x: u64,
    limit: u64,
) -> Pair
    requires { x < limit }
    ensures first { IsConstant (status_at (T.statuses first.now)) x result.to result.first }
    ensures second { IsConstant (status_at (U.statuses second.now)) x result.to result.second }
    ensures inside { IsConstant (covers domain.now) x result.to result.inside }
    ensures limit { result.to ≤ limit }
{
    let piece = piece_at(first, domain, &mut near.first, x, limit);
    let other = status_from(second, &mut near.second, x, piece.to);
    Pair {
        to: other.to,
        first: piece.status,
        second: other.status,
        inside: piece.inside,
    }
}

/// Gives a status to the positions from a map's end up to another, if that lies past it. The map is as before if the
/// memory for one block wasn't there.
pub fn put(tiles: &mut PlainTiles, to: u64, status: Status) -> Result<(), NoMemory>
    requires { to < 2 ^ 63 }
    ensures ok { OnOk result (tiles.new.statuses
        ≡ tiles.old.statuses ++ replicate (to - length tiles.old.statuses) status) }
    ensures err { OnErr result (tiles.new.statuses ≡ tiles.old.statuses) }
{
    let pos = tiles.end();
    let size = to.saturating_sub(pos);
    tiles
        .push(Block { pos, size, status })
        .map_err(|_| NoMemory)
}

/// Whether a status is that of a finished position.
pub fn is_finished(status: Status) -> bool
    ensures { result ≡ same status Status.Finished }
{
    match status {
        Status::Finished => true,
        _ => false,
    }
}
