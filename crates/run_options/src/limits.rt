//! The limits of a run.
ghost use Rattle.std.specs.Prelude.{◌≡◌};
ghost use Rattle.run_options.specs.Limits.{no_limits};

/// How many areas of the domain may have failed. A run stops once there are more.
#[derive(Clone, Copy, Debug, PartialEq, Eq)]
pub enum AreaLimit {
    /// This number in all; those that had failed before the run began count too.
    Total(u64),
    /// This number more than had failed before the run began.
    New(u64),
}

/// The limits of a run; no limit if one is `None`.
#[derive(Clone, Copy, Debug, PartialEq, Eq)]
pub struct Limits {
    /// How many reads may fail.
    pub errors: Option<u64>,
    /// How many areas may have failed.
    pub areas: Option<AreaLimit>,
    /// For how many seconds there may be no read that gives all it was asked for or meets the infile's end.
    pub timeout: Option<u64>,
}

impl Limits {
    /// No limit at all.
    pub fn none() -> Limits
        ensures { result ≡ no_limits }
    {
        Limits {
            errors: None,
            areas: None,
            timeout: None,
        }
    }
}
