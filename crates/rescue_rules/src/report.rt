//! What a status line says.
ghost use Rattle.std.specs.Prelude.{◌≡◌, ◌≤◌, length};
ghost use Rattle.rescue_rules.specs.Lines.{phase_text};

use block_list::areas::Count;
use mapfile_text::state::{Current, MapState};

/// How much of a domain is finished, and how much of it failed.
#[derive(Clone, Copy, Debug, PartialEq, Eq)]
pub struct Counts {
    /// In bytes.
    pub rescued: u64,
    pub failed: Count,
}

/// The line that was put last after an event: in which phase, and in which second.
#[derive(Clone, Copy, Debug, PartialEq, Eq)]
pub struct Said {
    pub current: Current,
    /// In whole seconds since 1970.
    pub second: u64,
}

/// What a line tells.
#[derive(Clone, Copy, Debug, PartialEq, Eq)]
pub struct Report {
    /// Where a mapfile would show that the run is.
    pub shown: MapState,
    pub counts: Counts,
    /// How many reads failed.
    pub errors: u64,
    /// How long the run has taken, in milliseconds.
    pub taken: u64,
    /// How many bytes the run has written.
    pub written: u64,
}

/// The name of a phase.
pub fn phase_name(current: Current) -> &'static str
    ensures text { result.now ≡ phase_text current }
    ensures short { length result.now ≤ 10 }
{
    match current {
        Current::Copying => "copying",
        Current::Trimming => "trimming",
        Current::Scraping => "scraping",
        Current::Retrying => "retrying",
        Current::Filling => "filling",
        Current::Generating => "generating",
        Current::Finished => "finished",
    }
}
