//! What the end of a run shows and answers.
ghost use Rattle.std.specs.Prelude.{◌≡◌, MatchOption};
ghost use Rattle.mapfile_text.specs.declared.state.Current.TheVariants.{Finished};
ghost use Rattle.rescue_rules.specs.Work.{end_of};

use mapfile_text::state::{Current, MapState};
use rescue_rules::stop::{RunEnd, Stop};

/// How a run ended, and whether it is still heard: whether lines were asked for, and each was put.
#[derive(Clone, Copy, Debug, PartialEq, Eq)]
pub struct Closed {
    pub end: RunEnd,
    pub heard: bool,
}

/// What the last mapfile shows: a run without a stop is finished.
pub(crate) fn last_shown(shown: MapState, stop: Option<Stop>) -> MapState
    ensures { MatchOption stop (result ≡ record shown { current = Finished; pass = 1 }) (λ _. result ≡ shown) }
{
    match stop {
        None => MapState {
            pos: shown.pos,
            current: Current::Finished,
            pass: 1,
        },
        Some(_) => shown,
    }
}

/// How a run ends whose last calls returned.
pub(crate) fn end_saved(stop: Option<Stop>) -> RunEnd
    ensures { result ≡ end_of stop }
{
    match stop {
        None => RunEnd::Done,
        Some(stop) => RunEnd::Stopped(stop),
    }
}
