//! What the definitions mean.
ghost use Rattle.sweep_rules.specs.SweepLaws.{FilledMapStands, GeneratesWhatIsHeld, PieceIsOne, SweepFailsNoRead};
ghost use Rattle.sweep_rules.specs.SweepStops.{FillsSafely, GeneratesSafely};
ghost use Rattle.sweep_rules.specs.SweepOpens.{EndsEarlySafely};

/// A state has one piece at most.
pub fn a_state_has_one_piece()
    ensures { PieceIsOne }
{}

/// Fill mode leaves the map.
pub fn a_filled_map_stands()
    ensures { FilledMapStands }
{}

/// Generate mode finishes only positions that were finished, or for which the output holds a byte.
pub fn what_is_generated_is_held()
    ensures { GeneratesWhatIsHeld }
{}

/// A sweep counts no failed read.
pub fn a_sweep_fails_no_read()
    ensures { SweepFailsNoRead }
{}

/// A filling stops safely at every moment.
pub fn a_filling_stops_safely()
    ensures { FillsSafely }
{}

/// A generating stops safely at every moment, and changes nothing of the output.
pub fn a_generating_stops_safely()
    ensures { GeneratesSafely }
{}

/// A sweep that ended before its first piece stops safely at every moment, and leaves the mapfile's map.
pub fn a_sweep_without_a_piece_stops_safely()
    ensures { EndsEarlySafely }
{}
