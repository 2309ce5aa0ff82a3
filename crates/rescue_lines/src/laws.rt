//! What the definitions mean.
ghost use Rattle.rescue_lines.specs.Lines.{LinesAreOfFigures};

/// What a rescue prints of a report is the line of the report's figures.
pub fn lines_are_of_figures()
    ensures { LinesAreOfFigures }
{}
