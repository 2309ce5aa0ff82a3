//! What the definitions mean.
ghost use Rattle.map_counts.specs.Laws.{LinesAddUp};

/// The lines of a summary add up to the domain.
pub fn lines_add_up()
    ensures { LinesAddUp }
{}
