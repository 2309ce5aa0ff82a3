//! How a call of `ddrescuepart` ended.
ghost use Rattle.std.specs.Prelude.{◌≡◌};
ghost use Rattle.ddrescuepart_cli.specs.Answers.{ending_of, status_of_ending};

use option_words::fault::UsageFault;
use partition_domain::stop::{Refusal, SearchStop};

/// How a call of `ddrescuepart` ended.
#[derive(Clone, Copy, Debug, PartialEq, Eq)]
pub enum PartEnding {
    /// The map of the partition was printed.
    Done,
    /// The words ask for nothing that can be done.
    Usage(UsageFault),
    /// The input couldn't be opened.
    SourceFault,
    /// The input was lost while it was read.
    SourceLost,
    /// What was read gives no partition.
    Refused(Refusal),
    /// The map couldn't be printed, or not all of it.
    ConsoleFault,
    /// There wasn't enough memory.
    NoMemory,
}

impl PartEnding {
    /// The answer for a search that stopped.
    pub(crate) fn stopped(stop: SearchStop) -> PartEnding
        ensures { result ≡ ending_of stop }
    {
        match stop {
            SearchStop::SourceLost => PartEnding::SourceLost,
            SearchStop::Refused(refusal) => PartEnding::Refused(refusal),
        }
    }

    /// The exit status: 0 for what is done, 2 for a table that is refused, 4 for lack of memory, 1 for all else.
    pub fn code(&self) -> u8
        ensures { result ≡ status_of_ending self.now }
    {
        match self {
            PartEnding::Done => 0,
            PartEnding::Refused(Refusal::NoPartition) => 1,
            PartEnding::Refused(_) => 2,
            PartEnding::NoMemory => 4,
            _ => 1,
        }
    }
}
