//! What the definitions mean.
ghost use Rattle.rescue_plan.specs.Laws.{PlanExists, PlanIsBegun, PlanIsOne, PlanNeedsNoOutput, RescuesArePlanned};

/// A plan begins with the first reads of it, however many they are, and so there is one plan at most.
pub fn a_plan_is_one()
    ensures { PlanIsOne }
{}

/// Options that set no limit have a plan, of an input of any length over any test map.
pub fn a_plan_exists()
    ensures { PlanExists }
{}

/// A plan depends on no file and no name, and neither on the output's position nor on how a map is prepared.
pub fn a_plan_needs_no_output()
    ensures { PlanNeedsNoOutput }
{}

/// What the run of a plan put is a beginning of the plan's lines, however it ended.
pub fn a_plan_is_begun()
    ensures { PlanIsBegun }
{}

/// What a rescue reads in test mode, of an input that gives all that it is asked for, are the first reads of the plan
/// for the same options, and all of it if no request is left.
pub fn a_rescue_is_planned()
    ensures { RescuesArePlanned }
{}
