//! What the definitions mean.
ghost use Rattle.run_laws.specs.Laws.{CopyingAsksOnce, RunAsksFew, RunEndsWell};

/// A position is asked at most once in copying, whatever the run skips and in whichever direction its passes go.
pub fn copying_asks_once()
    ensures { CopyingAsksOnce }
{}

/// A run asks for a position once at most in copying, in trimming and scraping together, and in each pass of retrying,
/// and never for a finished one.
pub fn a_run_asks_few_times()
    ensures { RunAsksFew }
{}

/// What a run leaves that went on to its end is rescued, was not to be tried further, or failed each time it was asked
/// for.
pub fn a_run_ends_well()
    ensures { RunEndsWell }
{}
