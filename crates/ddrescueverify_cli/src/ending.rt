//! How a call of `ddrescueverify` ended, and its exit status.
ghost use Rattle.std.specs.Prelude.{◌≡◌};
ghost use Rattle.ddrescueverify_cli.specs.Answers.{status_of_ending};

use block_list::tiles::NoMemory;
use crash_site::site::SiteCall;
use mapfile_text::read::MapError;
use option_words::fault::UsageFault;
use program_promise::operand::Operand;

/// A map that is named.
#[derive(Clone, Copy, Debug, PartialEq, Eq)]
pub enum Which {
    /// The mapfile itself.
    RunMap,
}

/// How a call of `ddrescueverify` ended.
#[derive(Clone, Copy, Debug, PartialEq, Eq)]
pub enum VerifyEnding {
    /// The outfile has all that the infile gave, and the map was saved.
    Done,
    /// The outfile lacks some of what the infile gave: pieces with this many bytes in all became non-tried, and the
    /// map was saved.
    Differs { bytes: u64 },
    /// The words ask for nothing that can be done.
    Usage(UsageFault),
    /// Two files have the same name.
    SameName { first: Operand, second: Operand },
    /// The mapfile isn't there, or says nothing.
    NoMap,
    /// The outfile isn't there.
    NoOutput,
    /// The mapfile's text is no map, or is too long.
    MapRefused { which: Which, error: MapError },
    /// The infile couldn't be opened.
    SourceFault,
    /// The infile was lost during a read. Nothing was saved.
    SourceLost,
    /// A call on the outfile, on the mapfile or on its folder failed. A mapfile that is no regular file fails to be
    /// read. Unless it was the last settle of a save, the mapfile is unchanged.
    SiteFault { call: SiteCall },
    /// The map was saved, and the numbers couldn't be printed, or not all of them.
    ConsoleFault,
    /// There wasn't enough memory. Nothing was saved.
    NoMemory,
}

impl From<NoMemory> for VerifyEnding {
    ghost use Rattle.std.specs.Prelude.{◌≡◌};
    ghost use Rattle.ddrescueverify_cli.specs.declared.ending.VerifyEnding.TheVariants.{NoMemory as OutOfMemory};

    ghost from_gives = { λ _ e. e ≡ OutOfMemory };

    fn from(_error: NoMemory) -> VerifyEnding {
        VerifyEnding::NoMemory
    }
}

impl VerifyEnding {
    /// The exit status: 0 if nothing differs, 2 for a mapfile that is refused, 4 for lack of memory, 1 for all else.
    pub fn code(&self) -> u8
        ensures { result ≡ status_of_ending self.now }
    {
        match self {
            VerifyEnding::Done => 0,
            VerifyEnding::MapRefused { .. } => 2,
            VerifyEnding::NoMemory => 4,
            _ => 1,
        }
    }
}
