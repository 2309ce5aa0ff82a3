//! What is made of a map before a run.
ghost use Rattle.std.specs.Prelude.{◌≡◌, ℕ, ◌+◌, ◌*◌, ◌≤◌, Bool, List, OnOk, OnErr, IfOk, IfSome, IfNone};
ghost use Rattle.block_list.specs.declared.status.Status.{Status};
ghost use Rattle.block_list.specs.Places.{IsFirst, IsRangeUp};
ghost use Rattle.rescue_domain.specs.Parts.{covers};
ghost use Rattle.rescue_rules.specs.Preparation.{prepared_status, prepared, IsChanged};
ghost use Rattle.rescue_domain.specs.Search.{IsMarked};
ghost use Rattle.map_preparation.specs.Preparing.{replaced, HasChanges, HasRoom, TakesRoom};

use block_list::block::Range;
use block_list::status::Status;
use block_list::tiles::{NoMemory, Tiles};
use rescue_domain::domain::Domain;
use rescue_domain::live::Live;
use rescue_domain::search::find_up;

/// Prepares a map for a run over a domain. `try_again` leaves to copy what was left to trim or to scrape; then `retrim`
/// leaves to trim what failed. All memory for more blocks is taken before the first change.
pub fn prepare<T: Tiles>(
    tiles: &mut T,
    domain: &Domain,
    try_again: bool,
    retrim: bool,
) -> Result<(), NoMemory>
    ensures prepared { OnOk result (T.statuses tiles.new
        ≡ prepared (covers domain.now) try_again retrim (T.statuses tiles.old)) }
    ensures unchanged { OnErr result (T.statuses tiles.new ≡ T.statuses tiles.old) }
{
    let trimmed = prepared_to(try_again, retrim, Status::NonTrimmed);
    let scraped = prepared_to(try_again, retrim, Status::NonScraped);
    let bad = prepared_to(try_again, retrim, Status::BadSector);
    let room = room_after(tiles, domain, Status::NonTrimmed, trimmed, 0)?;
    let room = room_after(tiles, domain, Status::NonScraped, scraped, room)?;
    let room = room_after(tiles, domain, Status::BadSector, bad, room)?;
    tiles.reserve(room)?;
    replace(tiles, domain, Status::NonTrimmed, trimmed);
    replace(tiles, domain, Status::NonScraped, scraped);
    replace(tiles, domain, Status::BadSector, bad);
    Ok(())
}

/// Preparation goes by position: what becomes of one doesn't depend on the others.
pub fn preparation_goes_by_position()
    ensures { (domain : ℕ → Bool) (try_again retrim : Bool) (map : List Status)
        → IsChanged domain (prepared_status try_again retrim) map (prepared domain try_again retrim map) }
{}

/// What becomes of a status in a domain.
fn prepared_to(try_again: bool, retrim: bool, status: Status) -> Status
    ensures { result ≡ prepared_status try_again retrim status }
{
    match status {
        Status::NonTrimmed | Status::NonScraped if try_again => Status::NonTried,
        Status::NonScraped | Status::BadSector if retrim => Status::NonTrimmed,
        _ => status,
    }
}

/// The first range, at or after a position, of positions of a domain that have a status.
fn find_in<T: Tiles>(domain: &Domain, tiles: &T, from: u64, status: Status) -> Option<Range>
    ensures first { IfSome result (λ range.
        IsFirst (IsMarked (covers domain.now) (T.statuses tiles.now) status) from range.from) }
    ensures range { IfSome result (λ range.
        IsRangeUp (IsMarked (covers domain.now) (T.statuses tiles.now) status) range.from range.to) }
    ensures none { IfNone result ((x : ℕ) → from ≤ x
        → IsMarked (covers domain.now) (T.statuses tiles.now) status x → ⊥) }
{
    let all = Live { domain, over: None };
    find_up(all, tiles, from, status)
}

/// The blocks that giving the positions of a domain with one status another may take, beside others.
fn room_after<T: Tiles>(
    tiles: &T,
    domain: &Domain,
    from: Status,
    to: Status,
    others: usize,
) -> Result<usize, NoMemory>
    ensures { IfOk result (TakesRoom (covers domain.now) (T.statuses tiles.now) from to others) }
{
    if from.is(to) {
        return Ok(others);
    }
    let mut room = others;
    let mut at = 0;
    while let Some(range) = find_in(domain, tiles, at, from) {
        room = room.checked_add(2).ok_or(NoMemory)?;
        at = range.to;
    }
    Ok(room)
}

/// Gives the positions of a domain that have one status another.
fn replace<T: Tiles>(tiles: &mut T, domain: &Domain, from: Status, to: Status)
    requires room { HasRoom (covers domain.now) (T.statuses tiles.old) from to (T.spare tiles.old) }
    ensures changed { IsChanged (covers domain.now) (replaced from to) (T.statuses tiles.old) (T.statuses tiles.new) }
    ensures spare { (ranges : ℕ) → HasChanges (covers domain.now) (T.statuses tiles.old) from to ranges
        → T.spare tiles.old ≤ T.spare tiles.new + 2 * ranges }
{
    if from.is(to) {
        return;
    }
    let mut at = 0;
    while let Some(range) = find_in(domain, tiles, at, from) {
        tiles.set(range.from, range.to - range.from, to);
        at = range.to;
    }
}
