//! Why a run stops, and how it ends.
ghost use Rattle.std.specs.Prelude.{◌≡◌};
ghost use Rattle.rescue_rules.specs.Lines.{is_done};

use crash_site::site::SiteCall;

/// A limit that a run met.
#[derive(Clone, Copy, Debug, PartialEq, Eq)]
pub enum Limit {
    /// This number of reads failed, which is more than may.
    TooManyErrors(u64),
    /// This number of areas failed, which is more than may.
    TooManyAreas(u64),
    /// No read gave all it was asked for, or met the input's end, for this number of milliseconds.
    TimedOut(u64),
}

/// Why a run stopped before its end.
#[derive(Clone, Copy, Debug, PartialEq, Eq)]
pub enum Stop {
    /// The infile was lost during a read.
    SourceLost,
    /// A call on the outfile, the mapfile or its folder failed.
    Site(SiteCall),
    /// The run met a limit that was set to it.
    LimitMet(Limit),
    /// There wasn't enough memory.
    NoMemory,
}

/// Where trimming is: before a range's front, or at the back of the range that begins at a position.
#[derive(Clone, Copy, Debug, PartialEq, Eq)]
pub enum TrimMode {
    Lead,
    Tail(u64),
}

/// How a run ended.
#[derive(Clone, Copy, Debug, PartialEq, Eq)]
pub enum RunEnd {
    /// The run went on to its end. Its map was saved or, without a mapfile, its output synced.
    Done,
    /// The run stopped. Its map was saved or, without a mapfile, its output synced, unless the run stopped at a call on
    /// its files.
    Stopped(Stop),
    /// A call of the run's last save failed, or the sync of its output. If the run had stopped before, `earlier` says
    /// why.
    SaveFailed {
        call: SiteCall,
        earlier: Option<Stop>,
    },
}

impl RunEnd {
    /// Whether it went on to its end.
    pub fn is_done(&self) -> bool
        ensures { result ≡ is_done self.now }
    {
        matches!(self, RunEnd::Done)
    }
}
