//! What a read changes in the map.
ghost use Rattle.std.specs.Prelude.{◌≡◌, ◌+◌, ◌-◌, ◌<◌, ◌≤◌, length};
ghost use Rattle.block_list.specs.Map.{marked};
ghost use Rattle.faulty_source.specs.Journal.{Reading};
ghost use Rattle.transfer_token.specs.Tokens.{size_of, Spans, IsCut};
ghost use Rattle.rescue_rules.specs.Machine.{Machine, pass_of};
ghost use Rattle.rescue_rules.specs.Setting.{Setting};
ghost use Rattle.rescue_rules.specs.Step.{map_after, rest_status, scraped};
ghost use Rattle.rescue_core.specs.RunState.{RunState, setting_in};
ghost use Rattle.rescue_core.specs.TurnParts.{RunsAt, end_met, IsBackOf};

use block_list::status::Status;
use block_list::tiles::Tiles;
use rescue_rules::phase::Phase;
use rescue_rules::progress::Progress;
use rescue_rules::stop::TrimMode;
use run_options::settings::Settings;
use transfer_token::book::{book, book_missed};
use transfer_token::fetch::Cut;
use transfer_token::token::{Landed, Missed, Request};

/// Marks what was kept of a request, and what was missed; answers where the input ended, if the read met its end.
#[inline(always)]
pub(crate) fn mark<T: Tiles>(
    tiles: &mut T,
    kept: Cut<Landed>,
    request: Request,
    settings: &Settings,
    phase: Phase,
    progress: Progress,
) -> Option<u64>
    requires spans { Spans request kept }
    requires within { request.pos + request.len ≤ length (T.statuses tiles.old) }
    requires back { IsBackOf progress.mode request.pos }
    requires spare { 6 ≤ T.spare tiles.old }
    ensures map { (r : RunState) (reading : Reading) → RunsAt settings.now phase progress r
        → r.machine.map ≡ T.statuses tiles.old → reading.pos ≡ request.pos
        → IsCut settings.now.sector reading kept
        → T.statuses tiles.new ≡ map_after (setting_in r) r.machine reading }
    ensures end { (reading : Reading) → IsCut settings.now.sector reading kept → result ≡ end_met reading }
{
    match kept {
        Cut::Whole(landed) => {
            book(tiles, landed);
            None
        }
        Cut::Part(landed, missed) => {
            book(tiles, landed);
            mark_missed(tiles, missed, settings, phase);
            mark_between(tiles, progress.mode, request.pos);
            None
        }
        Cut::Nothing(missed) => {
            mark_missed(tiles, missed, settings, phase);
            mark_between(tiles, progress.mode, request.pos);
            None
        }
        Cut::Ended(landed, over) => {
            book(tiles, landed);
            Some(over.end())
        }
        Cut::Empty(over) => Some(over.end()),
    }
}

/// Marks what was missed: for trimming, if copying asked for it and it is longer than a sector; else as bad.
fn mark_missed<T: Tiles>(tiles: &mut T, missed: Missed, settings: &Settings, phase: Phase)
    requires within { missed.to ≤ length (T.statuses tiles.old) }
    requires spare { 2 ≤ T.spare tiles.old }
    ensures marked { (s : Setting) (m : Machine) → s.sector ≡ settings.now.sector → (pass_of m).phase ≡ phase
        → T.statuses tiles.new ≡ marked (T.statuses tiles.old) missed.from (size_of missed)
        (rest_status s m (size_of missed)) }
    ensures size { length (T.statuses tiles.new) ≡ length (T.statuses tiles.old) }
    ensures spare { T.spare tiles.old ≤ T.spare tiles.new + 2 }
{
    let range = missed.range();
    let status = if phase == Phase::Copying && settings.sector < range.to - range.from {
        Status::NonTrimmed
    } else {
        Status::BadSector
    };
    book_missed(tiles, missed, status);
}

/// At a range's back, marks what lies between its front and a position for scraping.
fn mark_between<T: Tiles>(tiles: &mut T, mode: TrimMode, pos: u64)
    requires back { IsBackOf mode pos }
    requires within { pos ≤ length (T.statuses tiles.old) }
    requires spare { 2 ≤ T.spare tiles.old }
    ensures { T.statuses tiles.new ≡ scraped mode pos (T.statuses tiles.old) }
{
    if let TrimMode::Tail(low) = mode
        && low < pos
    {
        tiles.set(low, pos - low, Status::NonScraped);
    }
}
