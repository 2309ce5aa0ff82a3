//! How a call of `ddrescueplan` ended.
ghost use Rattle.std.specs.Prelude.{◌≡◌};
ghost use Rattle.ddrescueplan_cli.specs.Answers.{ending_of, refusal_of, status_of_ending};

use crash_site::site::SiteCall;
use mapfile_resume::named::NamedFault;
use mapfile_text::read::MapError;
use option_words::fault::UsageFault;
use rescue_plan::PlanLoss;
use rescue_plan::run::PlanEnd;

/// How a call of `ddrescueplan` ended.
#[derive(Clone, Copy, Debug, PartialEq, Eq)]
pub enum PlanEnding {
    /// The whole plan was put.
    Done,
    /// The words ask for nothing that can be done.
    Usage(UsageFault),
    /// The test map isn't there.
    NoMap,
    /// The test map's text is no map, or is too long.
    MapRefused { error: MapError },
    /// A read of the test map failed. One that is no regular file fails to be read.
    SiteFault { call: SiteCall },
    /// The plan couldn't be put, or not all of it.
    ConsoleFault,
    /// There wasn't enough memory. The plan was put up to the read that it ran out at.
    NoMemory,
}

impl PlanEnding {
    /// The answer for a test map that couldn't be loaded.
    pub(crate) fn refused(fault: NamedFault) -> PlanEnding
        ensures { result ≡ refusal_of fault }
    {
        match fault {
            NamedFault::ReadFailed => PlanEnding::SiteFault {
                call: SiteCall::MapRead,
            },
            NamedFault::Absent => PlanEnding::NoMap,
            NamedFault::Refused(error) => PlanEnding::MapRefused { error },
            NamedFault::NoMemory => PlanEnding::NoMemory,
        }
    }

    /// The answer for a plan that was put, by how that ended.
    pub(crate) fn ended(end: PlanEnd) -> PlanEnding
        ensures { result ≡ ending_of end }
    {
        match end {
            PlanEnd::Whole => PlanEnding::Done,
            PlanEnd::Lost(PlanLoss::Memory) => PlanEnding::NoMemory,
            PlanEnd::Lost(PlanLoss::Console) => PlanEnding::ConsoleFault,
        }
    }

    /// The exit status: 0 if all was put, 2 for a test map that is refused, 4 for lack of memory, 1 for all else.
    pub fn code(&self) -> u8
        ensures { result ≡ status_of_ending self.now }
    {
        match self {
            PlanEnding::Done => 0,
            PlanEnding::MapRefused { .. } => 2,
            PlanEnding::NoMemory => 4,
            _ => 1,
        }
    }
}
