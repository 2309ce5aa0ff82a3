//! How a call of `ddrescuelog` ended, and its exit status.
ghost use Rattle.std.specs.Prelude.{◌≡◌};
ghost use Rattle.ddrescuelog_cli.specs.Answers.{status_of_ending};

use block_list::tiles::NoMemory;
use crash_site::site::SiteCall;
use mapfile_text::read::MapError;
use option_words::fault::UsageFault;

/// A map that is named.
#[derive(Clone, Copy, Debug, PartialEq, Eq)]
pub enum Which {
    /// The map whose finished positions are examined, and no others.
    DomainMap,
    /// The mapfile itself.
    RunMap,
    /// The map that the mode works on too.
    OtherMap,
}

/// How a call of `ddrescuelog` ended.
#[derive(Clone, Copy, Debug, PartialEq, Eq)]
pub enum LogEnding {
    /// The mode's work was done: the map is finished, the maps agree, or the text was printed.
    Done,
    /// A position that is examined isn't finished.
    NotDone,
    /// The maps differ at a position that is examined.
    Differ,
    /// The words ask for nothing that can be done.
    Usage(UsageFault),
    /// There is a file already where a map is to be made, and no option says to replace it.
    Exists,
    /// A map that is named isn't there.
    NoMap(Which),
    /// A map's text is no map, or is too long. One that says nothing is no map.
    MapRefused { which: Which, error: MapError },
    /// A line of the list isn't a block number.
    BadNumber { line: usize },
    /// The list has more bytes than a list may have.
    ListTooLong,
    /// A call on the files failed.
    SiteFault { call: SiteCall },
    /// The list couldn't be read.
    FeedFault,
    /// The text couldn't be printed, or not all of it.
    ConsoleFault,
    /// There wasn't enough memory.
    NoMemory,
}

impl From<NoMemory> for LogEnding {
    ghost use Rattle.std.specs.Prelude.{◌≡◌};
    ghost use Rattle.ddrescuelog_cli.specs.declared.ending.LogEnding.TheVariants.{NoMemory as OutOfMemory};

    ghost from_gives = { λ _ e. e ≡ OutOfMemory };

    fn from(_error: NoMemory) -> LogEnding {
        LogEnding::NoMemory
    }
}

impl LogEnding {
    /// The exit status: 0 for what is done, 2 for a map or a list that is refused, 4 for lack of memory, 1 for all
    /// else.
    pub fn code(&self) -> u8
        ensures { result ≡ status_of_ending self.now }
    {
        match self {
            LogEnding::Done => 0,
            LogEnding::MapRefused { .. } | LogEnding::BadNumber { .. } | LogEnding::ListTooLong =>
                2,
            LogEnding::NoMemory => 4,
            _ => 1,
        }
    }
}
