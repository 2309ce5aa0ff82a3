//! The two modes of a sweep, and what each one looks for.
ghost use Rattle.std.specs.Prelude.{◌≡◌};
ghost use Rattle.fill_generate.specs.Modes.{takes_in, current_in};

use block_list::status::Status;
use block_list::types::TypeSet;
use mapfile_text::state::Current;

/// What a sweep does with a piece of its map.
#[derive(Clone, Copy, Debug, PartialEq, Eq)]
pub(crate) enum SweepMode {
    /// Writes a pattern to the output, at positions with one of these statuses.
    Fill(TypeSet),
    /// Looks up in the output whether it holds what wasn't tried.
    Generate,
}

impl SweepMode {
    /// Whether positions with a status are taken.
    pub fn takes(self, status: Status) -> bool
        ensures { result ≡ takes_in self status }
    {
        match self {
            SweepMode::Fill(types) => types.has(status),
            SweepMode::Generate => matches!(status, Status::NonTried),
        }
    }

    /// What a mapfile shows of a sweep in this mode.
    pub fn current(self) -> Current
        ensures { result ≡ current_in self }
    {
        match self {
            SweepMode::Fill(_) => Current::Filling,
            SweepMode::Generate => Current::Generating,
        }
    }
}
