//! What the definitions mean.
ghost use Rattle.std.specs.Prelude.{List};
ghost use Rattle.block_list.specs.declared.status.Status.{Status};
ghost use Rattle.block_list.specs.Stretches.{stretches, AreStretches, OneStretchHolds, StretchesMeet, StretchesGoOn};
ghost use Rattle.block_list.specs.Areas.{AreasAreIntervals, AreasChangeWithin};
ghost use Rattle.block_list.specs.Types.{TypesAreCharacters};

/// The stretches of a map are maximal, tile it from 0 on, and together are the map.
pub fn stretches_are_the_map()
    ensures { (map : List Status) → AreStretches map (stretches map) }
{}

/// Each position is held by one stretch of the map, and the stretch at the end of another begins there.
pub fn stretches_hold_positions()
    ensures one { OneStretchHolds }
    ensures meet { StretchesMeet }
{}

/// From a position on a map goes on with the rest of the stretch that holds it, and then with the next ones.
pub fn stretches_go_on()
    ensures { StretchesGoOn }
{}

/// A text is types if it has at least one character and each is a status's; then a status is one of them if the text
/// has its character.
pub fn types_are_characters()
    ensures { TypesAreCharacters }
{}

/// The areas of a set of positions, counted by where they begin, are its maximal intervals.
pub fn areas_are_intervals()
    ensures { AreasAreIntervals }
{}

/// If a set of positions changes only from one position up to another, areas begin and cease to begin only there, or at
/// the second one.
pub fn areas_change_within()
    ensures { AreasChangeWithin }
{}
