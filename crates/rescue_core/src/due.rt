//! When a line and a save are due, and what an event changes for the next ones.
ghost use Rattle.std.specs.Prelude.{◌≡◌, ◌+◌, ◌/◌, nat_le};
ghost use Rattle.rescue_rules.specs.Said.{is_line_due};
ghost use Rattle.rescue_rules.specs.Step.{save_interval, tally_at};

use mapfile_text::state::{Current, MapState};
use rescue_rules::report::Said;
use rescue_rules::tally::Tally;

/// The milliseconds between two due saves.
const SAVE_INTERVAL: u64 = 30000;

/// Whether a line is due after an event, in this phase and this second.
fn is_line_due(said: Option<Said>, current: Current, second: u64) -> bool
    ensures { result ≡ is_line_due said current second }
{
    match said {
        None => true,
        Some(said) => said.current != current || said.second < second,
    }
}

/// Whether a save is due after an event at this time, by when the last one was.
fn is_save_due(due_at: u64, after: u64) -> bool
    ensures { result ≡ nat_le (due_at + save_interval) after }
{
    after.saturating_sub(due_at) >= SAVE_INTERVAL
}

/// What is due after an event.
#[derive(Drop)]
pub struct Due {
    /// Whether a line is due, and whether it is time for a save.
    pub speaks: bool,
    pub saves: bool,
}

/// Goes on after an event at this time, from which on a mapfile shows this, and in which this many bytes were written.
/// Tells what is due.
#[inline(always)]
pub(crate) fn pass_event(tally: &mut Tally, shown: MapState, more: u64, after: u64) -> Due
    ensures tally { tally.new ≡ tally_at tally.old shown more after }
    ensures speaks { result.speaks ≡ is_line_due tally.old.said shown.current (after / 1000) }
    ensures saves { result.saves ≡ nat_le (tally.old.due_at + save_interval) after }
{
    let second = after / 1000;
    let speaks = is_line_due(tally.said, shown.current, second);
    let saves = is_save_due(tally.due_at, after);
    tally.now = after;
    tally.shown = shown;
    tally.written = tally.written.saturating_add(more);
    tally.had_event = true;
    if saves {
        tally.due_at = after;
    }
    if speaks {
        tally.said = Some(Said {
            current: shown.current,
            second,
        });
    }
    Due { speaks, saves }
}
