//! How a call of `ddrescueshow` ended.
ghost use Rattle.std.specs.Prelude.{◌≡◌};
ghost use Rattle.ddrescueshow_cli.specs.Answers.{refusal_of, status_of_ending};

use crash_site::site::SiteCall;
use mapfile_resume::named::NamedFault;
use mapfile_text::read::MapError;
use option_words::fault::UsageFault;

/// A map that is named.
#[derive(Clone, Copy, Debug, PartialEq, Eq)]
pub enum Which {
    /// The mapfile itself.
    RunMap,
    /// The map whose finished positions are shown and no others.
    DomainMap,
}

/// How a call of `ddrescueshow` ended.
#[derive(Clone, Copy, Debug, PartialEq, Eq)]
pub enum ShowEnding {
    /// The picture was put.
    Done,
    /// The words ask for nothing that can be done.
    Usage(UsageFault),
    /// The options ask for more cells than are put in SVG.
    TooManyCells,
    /// A map that is named isn't there.
    NoMap(Which),
    /// A map's text is no map, or is too long.
    MapRefused { which: Which, error: MapError },
    /// A read of a map failed. A file that is no regular file fails to be read.
    SiteFault { call: SiteCall },
    /// The picture couldn't be put, or not all of it.
    ConsoleFault,
    /// There wasn't enough memory.
    NoMemory,
}

impl ShowEnding {
    /// The answer for a map that couldn't be loaded.
    pub(crate) fn refused(which: Which, fault: NamedFault) -> ShowEnding
        ensures { result ≡ refusal_of which fault }
    {
        match fault {
            NamedFault::ReadFailed => ShowEnding::SiteFault {
                call: SiteCall::MapRead,
            },
            NamedFault::Absent => ShowEnding::NoMap(which),
            NamedFault::Refused(error) => ShowEnding::MapRefused { which, error },
            NamedFault::NoMemory => ShowEnding::NoMemory,
        }
    }

    /// The exit status: 0 if the picture was put, 2 for a map that is refused, 4 for lack of memory, 1 for all else.
    pub fn code(&self) -> u8
        ensures { result ≡ status_of_ending self.now }
    {
        match self {
            ShowEnding::Done => 0,
            ShowEnding::MapRefused { .. } => 2,
            ShowEnding::NoMemory => 4,
            _ => 1,
        }
    }
}
