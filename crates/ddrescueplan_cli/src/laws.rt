//! What the definitions mean.
ghost use Rattle.ddrescueplan_cli.specs.Laws.{HasOneVerdict, IsPutUnless, PlanKeepsPromises};

/// A test map has one verdict at most.
pub fn test_maps_have_one_verdict()
    ensures { HasOneVerdict }
{}

/// If nothing failed, the test map is refused, or the whole plan over it is put unless memory runs out.
pub fn a_plan_is_put()
    ensures { IsPutUnless }
{}

/// `ddrescueplan` keeps what every program promises.
pub fn promises_are_kept()
    ensures { PlanKeepsPromises }
{}
