//! How a call of `ddrescue` ended, and its exit status.
ghost use Rattle.std.specs.Prelude.{◌≡◌};
ghost use Rattle.task_files.specs.Answers.{status_of_ending};
ghost use Rattle.task_files.specs.Work.{answer_of};

use block_list::tiles::NoMemory;
use crash_site::site::SiteCall;
use mapfile_text::read::MapError;
use option_words::fault::UsageFault;
use program_promise::operand::Operand;
use rescue_rules::stop::{Limit, RunEnd, Stop};

/// A mapfile that a rescue reads.
#[derive(Clone, Copy, Debug, PartialEq, Eq)]
pub enum Which {
    /// The map whose finished positions are to be rescued.
    DomainMap,
    /// The map whose finished positions are all that the infile gives, in test mode.
    TestMap,
    /// The mapfile that it is to go on with.
    RunMap,
}

/// How a call of `ddrescue` ended.
#[derive(Clone, Copy, Debug, PartialEq, Eq)]
pub enum Ending {
    /// Everything was tried as often as was asked, or filled or looked up, and the map was saved,
    /// or the outfile made durable if there is no mapfile.
    Done,
    /// The words ask for nothing that can be done.
    Usage(UsageFault),
    /// Two files have the same name.
    SameName {
        first: Operand,
        second: Operand,
    },
    /// A map that an option names isn't there.
    NoMap(Which),
    /// The infile couldn't be opened.
    SourceFault,
    /// The outfile is no regular file, and it wasn't forced to be taken.
    NotRegular,
    /// A mapfile's text is no map, or is too long.
    MapRefused {
        which: Which,
        error: MapError,
    },
    /// The infile was lost during a read.
    SourceLost,
    /// The pattern to fill with is empty.
    EmptyPattern,
    /// The pattern to fill with couldn't be read whole.
    PatternUnread,
    /// The outfile isn't there, and so nothing of what wasn't tried is in it.
    NoOutput,
    /// A call on the outfile, on the mapfile or on its folder failed. A mapfile that is no regular file fails to be
    /// read. If it was a call of the save at the end of a run that had stopped before, this says why the run had
    /// stopped; never by a failed call, after which there is no save.
    SiteFault {
        call: SiteCall,
        earlier: Option<Stop>,
    },
    /// The run met a limit that was set to it, and its map was saved.
    LimitMet(Limit),
    /// There wasn't enough memory.
    NoMemory,
}

impl From<NoMemory> for Ending {
    ghost use Rattle.std.specs.Prelude.{◌≡◌};
    ghost use Rattle.task_files.specs.declared.ending.Ending.TheVariants.{NoMemory as OutOfMemory};

    ghost from_gives = { λ _ e. e ≡ OutOfMemory };

    fn from(_error: NoMemory) -> Ending {
        Ending::NoMemory
    }
}

impl Ending {
    /// The exit status: 0 for what is finished, 2 for a mapfile that is refused, 4 for lack of memory, 1 for any
    /// other refusal.
    pub fn code(&self) -> u8
        ensures { result ≡ status_of_ending self.now }
    {
        match self {
            Ending::Done => 0,
            Ending::MapRefused { .. } => 2,
            Ending::NoMemory => 4,
            _ => 1,
        }
    }
}

/// How a call ended, and whether it is still heard: whether something is to be said, and each line was put.
#[derive(Clone, Copy, Debug)]
pub struct Ended {
    pub ending: Ending,
    pub heard: bool,
}

/// The answer of a run that ended so.
pub fn answer(end: RunEnd) -> Ending
    ensures { result ≡ answer_of end }
{
    match end {
        RunEnd::Done => Ending::Done,
        RunEnd::Stopped(Stop::SourceLost) => Ending::SourceLost,
        RunEnd::Stopped(Stop::Site(call)) => Ending::SiteFault {
            call,
            earlier: None,
        },
        RunEnd::Stopped(Stop::LimitMet(limit)) => Ending::LimitMet(limit),
        RunEnd::Stopped(Stop::NoMemory) => Ending::NoMemory,
        RunEnd::SaveFailed { call, earlier } => Ending::SiteFault { call, earlier },
    }
}
