//! The passes of a run.
ghost use Rattle.std.specs.Prelude.{◌≡◌};
ghost use Rattle.run_options.specs.Passes.{all_phases_once};

/// Which phases a run has, how often it retries, and in which directions its passes go.
#[derive(Clone, Copy, Debug, PartialEq, Eq)]
pub struct Passes {
    /// What copying left is trimmed.
    pub trims: bool,
    /// What trimming left is scraped.
    pub scrapes: bool,
    /// How many passes go over the bad sectors again.
    pub retries: u32,
    /// Each pass goes the other way.
    pub reverse: bool,
    /// All passes go one way, and don't alternate.
    pub one_way: bool,
}

impl Passes {
    /// Each phase but retrying; the first pass goes upwards, and those after it alternate.
    pub fn all_phases_once() -> Passes
        ensures { result ≡ all_phases_once }
    {
        Passes {
            trims: true,
            scrapes: true,
            retries: 0,
            reverse: false,
            one_way: false,
        }
    }
}
