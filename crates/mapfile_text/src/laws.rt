//! What the definitions mean.
ghost use Rattle.mapfile_text.specs.Laws.{HasOneFault, HasOneReading, IsMapOrHasFault, MapHasNoFault, PiecesAreTheText, PrintedIsRead, TakingGivesPieces};

/// No text is two maps.
pub fn map_text_has_one_reading()
    ensures { HasOneReading }
{}

/// A text that is a map is never refused.
pub fn map_text_has_no_fault()
    ensures { MapHasNoFault }
{}

/// A text that is no map has one error.
pub fn other_text_has_one_fault()
    ensures { HasOneFault }
{}

/// A text that is no map has an error.
pub fn text_is_map_or_has_fault()
    ensures { IsMapOrHasFault }
{}

/// What is printed is read again as it was.
pub fn printed_text_is_read()
    ensures { PrintedIsRead }
{}

/// The pieces that a printer gives from the start of a text on are the text; each but the last is full.
pub fn pieces_are_the_text()
    ensures taken { TakingGivesPieces }
    ensures whole { PiecesAreTheText }
{}
