//! What a run or a sweep has come to.
use crate::report::Said;
use mapfile_text::state::{Current, MapState};

/// What a run or a sweep has come to. A sweep reads no input. Times are in milliseconds since 1970.
#[derive(Clone, Copy, Debug, PartialEq, Eq)]
pub struct Tally {
    /// How many reads failed.
    pub failed: u64,
    /// The start, the last event, the last read that didn't fail and the last save that was due.
    pub began: u64,
    pub now: u64,
    pub whole_at: u64,
    pub due_at: u64,
    /// What a saved mapfile shows.
    pub shown: MapState,
    /// Where reads met the input's end, if they did: nothing there or past it is asked for any more.
    pub over: Option<u64>,
    /// How many bytes were written.
    pub written: u64,
    /// Whether there was an event. Before the first one no limit is met.
    pub had_event: bool,
    /// The line that was put last after an event, if there was one.
    pub said: Option<Said>,
    /// How many areas of the domain had failed at the start; none for a sweep, which has no limit.
    pub first_areas: u64,
}

impl Tally {
    ghost use Rattle.std.specs.Prelude.{◌≡◌};
    ghost use Rattle.rescue_rules.specs.Beginning.{shown_at_first, tally_at_first};

    /// The tally of a run that begins at this moment, with `first_areas` areas that have failed. The run may go on with
    /// a state that a mapfile showed.
    pub fn first(loaded: Option<MapState>, moment: u64, first_areas: u64) -> Tally
        ensures { result ≡ tally_at_first (shown_at_first loaded) moment first_areas }
    {
        let nothing = MapState {
            pos: 0,
            current: Current::Copying,
            pass: 1,
        };
        Tally {
            failed: 0,
            began: moment,
            now: moment,
            whole_at: moment,
            due_at: moment,
            shown: loaded.unwrap_or(nothing),
            over: None,
            written: 0,
            had_event: false,
            said: None,
            first_areas,
        }
    }
}
