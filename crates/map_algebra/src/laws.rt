//! What the definitions mean.
ghost use Rattle.map_algebra.specs.Laws.{MapHasEach, AndFinishesBoth, OrFinishesEither, OtherPositionsStand, XorUndoesItself, AreasAreRanges};

/// A map by statuses has each of them.
pub fn a_map_has_each_status()
    ensures { MapHasEach }
{}

/// What two maps in one finish.
pub fn combined_maps_finish_alike()
    ensures both { AndFinishesBoth }
    ensures either { OrFinishesEither }
    ensures stand { OtherPositionsStand }
    ensures undone { XorUndoesItself }
{}

/// An area begins where a range does.
pub fn areas_are_ranges()
    ensures { AreasAreRanges }
{}
