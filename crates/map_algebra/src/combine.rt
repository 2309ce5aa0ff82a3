//! Two maps in one.
ghost use Rattle.std.specs.Prelude.{◌≡◌, IfOk, if◌then◌else◌};
ghost use Rattle.rescue_domain.specs.Parts.{covers};
ghost use Rattle.map_algebra.specs.Combine.{combined, combined_map};

use block_list::status::Status;
use block_list::tiles::{NoMemory, Tiles};
use map_counts::pieces::{Pair, PairNearby, is_finished, pair_at, put};
use plain_blocks::plain_tiles::PlainTiles;
use rescue_domain::domain::Domain;
use std::alloc::Global;

/// How what is finished in two maps is combined.
#[derive(Clone, Copy, Debug, PartialEq, Eq)]
pub enum Op {
    /// Finished is what both have finished.
    And,
    /// Finished is what either has finished.
    Or,
    /// Finished is what one of them alone has finished.
    Xor,
}

/// The status of a position with these statuses in two maps.
fn combined(op: Op, first: Status, second: Status) -> Status
    ensures { result ≡ combined op first second }
{
    match (op, is_finished(first), is_finished(second)) {
        (Op::And, true, false) => Status::BadSector,
        (Op::Or, false, true) => Status::Finished,
        (Op::Xor, true, true) => Status::BadSector,
        (Op::Xor, false, true) => Status::Finished,
        _ => first,
    }
}

/// The status of the positions of a piece of two maps.
fn combined_piece(op: Op, pair: Pair) -> Status
    ensures { result ≡ if pair.inside then combined op pair.first pair.second else pair.first }
{
    if pair.inside {
        combined(op, pair.first, pair.second)
    } else {
        pair.first
    }
}

/// The first map, in which a domain's positions are combined with those of the second. It ends where the longer one
/// does; a map is non-tried past its own end.
pub fn combine<T: Tiles, U: Tiles>(
    alloc: Global,
    op: Op,
    first: &T,
    second: &U,
    domain: &Domain,
) -> Result<PlainTiles, NoMemory>
    ensures { IfOk result (λ t. t.statuses
        ≡ combined_map op (covers domain.now) (T.statuses first.now) (U.statuses second.now)) }
{
    let end = first.end().max(second.end());
    let mut out = PlainTiles::new(alloc);
    let mut near = PairNearby::start();
    let mut at = 0;
    while at < end {
        let pair = pair_at(first, second, domain, &mut near, at, end);
        put(&mut out, pair.to, combined_piece(op, pair))?;
        at = pair.to;
    }
    Ok(out)
}
