//! What a run has come to after a read.
ghost use Rattle.std.specs.Prelude.{◌≡◌, ◌*◌, ◌/◌, ◌<◌, ◌^◌};
ghost use Rattle.faulty_source.specs.Got.{count_of, is_end};
ghost use Rattle.faulty_source.specs.Journal.{kept as kept_by};
ghost use Rattle.rescue_rules.specs.Passes.{current_of};
ghost use Rattle.rescue_rules.specs.Machine.{Machine};
ghost use Rattle.rescue_rules.specs.Said.{is_line_due as line_due};
ghost use Rattle.rescue_rules.specs.Step.{Event, is_timely, earlier, step};
ghost use Rattle.rescue_core.specs.RunState.{RunState, setting_in, run_of};
ghost use Rattle.rescue_core.specs.Turning.{turn_of};
ghost use Rattle.rescue_core.specs.TurnParts.{IsReadOf, end_met};

use crate::due::{Due, pass_event};
use crate::running::Running;
use crate::turn::Turn;
use block_list::tiles::Tiles;
use faulty_source::source::Got;
use mapfile_text::state::{Current, MapState};
use rescue_rules::phase::Phase;
use rescue_rules::progress::Progress;
use rescue_rules::tally::Tally;
use transfer_token::token::Request;

impl<T: Tiles> Running<T> {
    /// What a turn answers of what a read gave between two times, of which `kept` bytes were kept.
    pub(crate) fn turn_after(
        &self,
        request: Request,
        got: Got,
        kept: u64,
        before: u64,
        after: u64,
    ) -> Turn
        requires { count_of got < 2 ^ 32 }
        ensures { (e : Event) → IsReadOf request (count_of got) (is_end got) e.reading
            → kept ≡ kept_by self.now.settings.sector e.reading → e.before ≡ before → e.after ≡ after
            → result ≡ turn_of (run_of T.Tiles self.now) e }
    {
        let whole = got.count() == request.len;
        let given = got.count() as u64;
        let min_rate = self.settings.skips.min_rate;
        let slow = min_rate > 0
            && given * 1000 < min_rate.saturating_mul(after.saturating_sub(before));
        Turn {
            kept,
            given,
            whole,
            slow: whole && slow,
            ended: got.is_end(),
        }
    }
}

/// Counts a read that ended at this time, and keeps the input's end, if the read met it; tells what is due.
#[inline(always)]
pub(crate) fn tally_after(
    tally: &mut Tally,
    turn: Turn,
    after: u64,
    shown: MapState,
    end: Option<u64>,
) -> Due
    ensures tally { (r : RunState) (e : Event) → tally.old ≡ r.machine.tally → turn ≡ turn_of r e
        → e.after ≡ after → shown ≡ (step (setting_in r) r.machine e).tally.shown → end ≡ end_met e.reading
        → tally.new ≡ (step (setting_in r) r.machine e).tally }
    ensures speaks { result.speaks ≡ line_due tally.old.said shown.current (after / 1000) }
    ensures saves { (m : Machine) (e : Event) → m.tally.due_at ≡ tally.old.due_at → e.after ≡ after
        → result.saves ≡ is_timely m e }
{
    if turn.failed() {
        tally.failed = tally.failed.saturating_add(1);
    } else {
        tally.whole_at = after;
    }
    if let Some(end) = end {
        tally.over = Some(earlier(tally.over, end));
    }
    pass_event(tally, shown, turn.kept, after)
}

/// The earlier of two ends, if there is another.
fn earlier(over: Option<u64>, end: u64) -> u64
    ensures { result ≡ earlier over end }
{
    match over {
        None => end,
        Some(over) => over.min(end),
    }
}

/// What a mapfile shows of a place in a phase.
pub(crate) fn shown_at(phase: Phase, progress: Progress) -> MapState
    ensures { result ≡ record { pos = progress.cursor; current = current_of phase; pass = progress.pass } }
{
    MapState {
        pos: progress.cursor,
        current: match phase {
            Phase::Copying => Current::Copying,
            Phase::Trimming => Current::Trimming,
            Phase::Scraping => Current::Scraping,
            Phase::Retrying => Current::Retrying,
        },
        pass: progress.pass,
    }
}
