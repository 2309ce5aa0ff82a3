//! What the definitions mean.
ghost use Rattle.fill_generate.specs.Sweeping.{EndsAreTold};

/// If a site tells, its record goes on with the calls of a sweep.
pub fn ends_are_told()
    ensures { EndsAreTold }
{}
