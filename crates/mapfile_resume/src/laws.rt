//! What the definitions mean.
ghost use Rattle.mapfile_resume.specs.Laws.{HasAnswer, NoneIsNotRead, NoneSaysNothing, PendingNothingIsFound, ReadAsOne, ReadIsNotRefused, RefusedForOne};

/// A mapfile is read as one map at most.
pub fn mapfile_is_read_as_one_map()
    ensures { ReadAsOne }
{}

/// A mapfile is refused for one error at most.
pub fn mapfile_is_refused_for_one_error()
    ensures { RefusedForOne }
{}

/// A mapfile that is read as a map isn't refused, and neither is one that is like none, except for lack of a status
/// line.
pub fn answers_exclude_each_other()
    ensures read { ReadIsNotRefused }
    ensures like_none { NoneIsNotRead }
    ensures blank { NoneSaysNothing }
{}

/// Each mapfile has an answer.
pub fn mapfile_has_an_answer()
    ensures { HasAnswer }
{}

/// After a resume a stop finds the mapfile and the open image as they read.
pub fn nothing_pending_is_found()
    ensures { PendingNothingIsFound }
{}
