//! What the definitions mean.
ghost use Rattle.rescue_sample.specs.Laws.{HasOneLine, SmallestHasOneBad};

/// A sample has one line at most.
pub fn a_sample_has_one_line()
    ensures { HasOneLine }
{}

/// In the smallest sample the first of its two sectors is bad.
pub fn the_smallest_sample_has_one_bad_sector()
    ensures { SmallestHasOneBad }
{}
