//! How much of what is left of a domain is finished, and how much of it failed.
ghost use Rattle.std.specs.Prelude.{◌≡◌, ℕ, ◌+◌, ◌<◌, ◌≤◌, ◌^◌, Bool, true, false, length, if◌then◌else◌};
ghost use Rattle.faulty_source.specs.Ends.{is_before};
ghost use Rattle.rescue_domain.specs.Parts.{covers};
ghost use Rattle.rescue_rules.specs.Counts.{counts_of, has_failed, has_finished, passing};
ghost use Rattle.rescue_rules.specs.Machine.{is_live};
ghost use Rattle.rescue_rules.specs.Recounts.{ComesIn, EndsAt, GoesOut, is_in_front};
ghost use Rattle.rescue_rules.specs.Step.{Event, copies};
ghost use Rattle.rescue_core.specs.Counting.{IsMarkedRead, counts_within, failed_in, finished_in};
ghost use Rattle.rescue_core.specs.RunState.{RunState, setting_in, HasCounts};
ghost use Rattle.rescue_core.specs.Turning.{stepped};
ghost use Rattle.rescue_core.specs.TurnParts.{end_met};

use crate::turn::Read;
use block_list::areas::Count;
use block_list::status::Status;
use block_list::tiles::Tiles;
use map_counts::summary::count_statuses;
use rescue_domain::domain::Domain;
use rescue_domain::live::Live;
use rescue_rules::phase::Phase;
use rescue_rules::report::Counts;

/// The counts of a whole map, which are looked up once, when a run begins.
pub fn counts_at_first<T: Tiles>(domain: &Domain, tiles: &T) -> Counts
    ensures { result ≡ counts_of (covers domain.now) (T.statuses tiles.now) }
{
    counts_between(domain, tiles, 0, tiles.end())
}

/// Goes on with the counts after a read. The map has the marks of the read; the domain is what was left before it.
/// If areas may have changed, the positions right beside the request are looked up.
#[inline(always)]
pub(crate) fn count_after<T: Tiles>(
    counts: &mut Counts,
    live: Live<'_>,
    tiles: &T,
    phase: Phase,
    read: Read,
    end: Option<u64>,
)
    ensures { (r : RunState) (e : Event) (heard : Bool) → HasCounts r counts.old
        → IsMarkedRead r e phase read.request read.turn live.entry (T.statuses tiles.now) → end ≡ end_met e.reading
        → HasCounts (stepped r e heard) counts.new }
{
    counts.rescued = counts.rescued.saturating_add(read.turn.kept);
    fail_after(&mut counts.failed, live, tiles, phase, read);
    if let Some(end) = end {
        *counts = counts_before(*counts, live, tiles, end);
    }
}

/// Goes on with the count of what failed, after the marks of a read. After a whole read of copying it is as before.
#[inline(always)]
fn fail_after<T: Tiles>(failed: &mut Count, live: Live<'_>, tiles: &T, phase: Phase, read: Read)
    ensures { (r : RunState) (e : Event)
        → failed.old ≡ (counts_of (is_live (setting_in r) r.machine) r.machine.map).failed
        → IsMarkedRead r e phase read.request read.turn live.entry (T.statuses tiles.now)
        → failed.new ≡ (counts_of (is_live (setting_in r) r.machine) (T.statuses tiles.now)).failed }
{
    let Read { request, turn } = read;
    let from = request.pos;
    if copies(phase) {
        if turn.failed() {
            let kept = from.saturating_add(turn.kept);
            let to = from.saturating_add(request.len as u64);
            *failed = failed_more(*failed, live, tiles, from, kept, to);
        }
    } else if turn.kept > 0 {
        let kept = from.saturating_add(turn.kept);
        let to = from.saturating_add(request.len as u64);
        *failed = failed_less(*failed, live, tiles, from, kept, to);
    }
}

/// The count of failures, when positions from `from` up to `to` hadn't failed, and those from `kept` on do after a
/// read.
#[inline(never)]
fn failed_more<T: Tiles>(
    failed: Count,
    live: Live<'_>,
    tiles: &T,
    from: u64,
    kept: u64,
    to: u64,
) -> Count
    ensures { (new : Count) → ComesIn (failed_in live.entry (T.statuses tiles.now)) from kept to failed new
        → new.bytes < 2 ^ 63 → new.areas < 2 ^ 63 → result ≡ new }
{
    let begins = from < kept || !failed_in_front(live, tiles, from);
    let ends = failed_at(live, tiles, to);
    Count {
        bytes: failed.bytes.saturating_add(to.saturating_sub(kept)),
        areas: moved(failed.areas, begins, ends),
    }
}

/// The count of failures, when positions from `from` up to `to` had failed, and those up to `kept` haven't after a
/// read.
#[inline(never)]
fn failed_less<T: Tiles>(
    failed: Count,
    live: Live<'_>,
    tiles: &T,
    from: u64,
    kept: u64,
    to: u64,
) -> Count
    ensures { (new : Count) → GoesOut (failed_in live.entry (T.statuses tiles.now)) from kept to failed new
        → new.areas < 2 ^ 63 → result ≡ new }
{
    let begins = kept < to || failed_at(live, tiles, to);
    let ends = !failed_in_front(live, tiles, from);
    Count {
        bytes: failed.bytes.saturating_sub(kept.saturating_sub(from)),
        areas: moved(failed.areas, begins, ends),
    }
}

/// How many areas there are after a change: one more if one begins, and one fewer if one ends.
fn moved(areas: u64, begins: bool, ends: bool) -> u64
    ensures { (new : ℕ) → new + (if ends then 1 else 0) ≡ areas + (if begins then 1 else 0) → new < 2 ^ 63
        → result ≡ new }
{
    areas
        .saturating_add(u64::from(begins))
        .saturating_sub(u64::from(ends))
}

/// The counts less what lies at an end or past it.
#[cold]
#[inline(never)]
fn counts_before<T: Tiles>(counts: Counts, live: Live<'_>, tiles: &T, end: u64) -> Counts
    ensures { (new : Counts) → EndsAt end (length (T.statuses tiles.now))
        (finished_in live.entry (T.statuses tiles.now)) (failed_in live.entry (T.statuses tiles.now)) counts new
        → result ≡ new }
{
    let top = end_of(live, tiles);
    let gone = counts_between(live.domain, tiles, end, top);
    Counts {
        rescued: counts.rescued.saturating_sub(gone.rescued),
        failed: Count {
            bytes: counts.failed.bytes.saturating_sub(gone.failed.bytes),
            areas: counts.failed.areas.saturating_sub(gone.failed.areas),
        },
    }
}

/// Where a map or what is left of a domain ends.
fn end_of<T: Tiles>(live: Live<'_>, tiles: &T) -> u64
    ensures within { result ≤ length (T.statuses tiles.now) }
    ensures before { (x : ℕ) → x < result → is_before live.entry.over x ≡ true }
    ensures past { (x : ℕ) → result ≤ x → x < length (T.statuses tiles.now) → is_before live.entry.over x ≡ false }
{
    match live.over {
        None => tiles.end(),
        Some(over) => over.min(tiles.end()),
    }
}

/// How much of a domain is finished and failed from one position up to another. Of an area its beginning counts.
fn counts_between<T: Tiles>(domain: &Domain, tiles: &T, from: u64, to: u64) -> Counts
    ensures { result ≡ counts_within (passing has_finished (covers domain.now) (T.statuses tiles.now))
        (passing has_failed (covers domain.now) (T.statuses tiles.now)) from to }
{
    let finished = count_statuses(tiles, domain, &[Status::Finished], from, to);
    let failed = count_statuses(
        tiles,
        domain,
        &[Status::NonTrimmed, Status::NonScraped, Status::BadSector],
        from,
        to,
    );
    Counts {
        rescued: finished.bytes,
        failed,
    }
}

/// Whether a position is left of a domain and failed.
fn failed_at<T: Tiles>(live: Live<'_>, tiles: &T, x: u64) -> bool
    ensures { result ≡ failed_in live.entry (T.statuses tiles.now) x }
{
    x < tiles.end() && live.holds(x) && has_failed(tiles.at(x))
}

/// Whether the position right before one is left of a domain and failed.
fn failed_in_front<T: Tiles>(live: Live<'_>, tiles: &T, x: u64) -> bool
    ensures { result ≡ is_in_front (failed_in live.entry (T.statuses tiles.now)) x }
{
    if x > 0 {
        failed_at(live, tiles, x - 1)
    } else {
        false
    }
}

/// Whether a status is that of a position that failed.
fn has_failed(status: Status) -> bool
    ensures { result ≡ has_failed status }
{
    match status {
        Status::NonTried => false,
        Status::NonTrimmed => true,
        Status::NonScraped => true,
        Status::BadSector => true,
        Status::Finished => false,
    }
}

/// Whether a phase is copying.
fn copies(phase: Phase) -> bool
    ensures { result ≡ copies phase }
{
    match phase {
        Phase::Copying => true,
        Phase::Trimming => false,
        Phase::Scraping => false,
        Phase::Retrying => false,
    }
}
