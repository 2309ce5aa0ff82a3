//! What the definitions mean.
ghost use Rattle.saved_laws.specs.Examples.{SavesWhatIsOld, StopFindsWhatIsOld, StopKeepsWhatIsOld};
ghost use Rattle.saved_laws.specs.GoesLaws.{LossIsBoundedIn};
ghost use Rattle.saved_laws.specs.Laws.{AnsweredCallIsCounted, BadWasAsked, ChainKeepsFailed, ChainKeepsOld, ChainKeepsSaved, DueSavesHaveReturned, DueSavesReturn, EachReadIsAnEvent, EachReadIsTimed, FailedCallIsAnswered, FailedIsKept, FailedWasAsked, FinishedAtEnd, LossIsBounded, LossIsBoundedByDues, NothingSavedIsLost, ReadsComeAfterTheBarrier, ReadsWait, ReturnedSavesKeep, SavesOnlyGrow, TriedAtEnd, TriedIsKept};

/// What reads gave whose bytes had begun to be written before a save that returned, every later stop finds finished.
pub fn nothing_saved_is_lost()
    ensures { NothingSavedIsLost }
{}

/// If its answer names no failed call, each stop after a rescue's end finds finished all that reads gave.
pub fn finished_at_end()
    ensures { FinishedAtEnd }
{}

/// If its answer names no failed call, each stop after a rescue's end finds tried all that reads asked for in vain.
pub fn tried_at_end()
    ensures { TriedAtEnd }
{}

/// By the readings of a clock that never goes back, a stop costs at most the last three reads that gave something, and
/// those that ended in the half minute before.
pub fn loss_is_bounded()
    ensures { LossIsBounded }
{}

/// What reads gave, every stop finds finished once more saves have returned than came due in these reads.
pub fn returned_saves_keep()
    ensures { ReturnedSavesKeep }
{}

/// What a mapfile found calls bad, the one from before did, or a read asked for it in vain.
pub fn bad_was_asked()
    ensures { BadWasAsked }
{}

/// What a mapfile found calls failed, the one from before did, or a read asked for it in vain.
pub fn failed_was_asked()
    ensures { FailedWasAsked }
{}

/// What a read asked for in vain, if it or a later one had begun to be written before a save that returned, every later
/// stop finds tried.
pub fn failed_is_kept()
    ensures { FailedIsKept }
{}

/// What the mapfile from before marks as tried, every stop past the barrier finds tried, if it isn't to be tried again.
pub fn tried_is_kept()
    ensures { TriedIsKept }
{}

/// What a stop past the barrier finds finished, each stop finds finished once a further save has returned.
pub fn saves_only_grow()
    ensures { SavesOnlyGrow }
{}

/// What one run of a chain gave before a save that returned, each stop after the chain finds finished.
pub fn a_chain_keeps_what_is_saved()
    ensures { ChainKeepsSaved }
{}

/// What one run of a chain asked for in vain before a save that returned, each stop after the chain finds tried, unless
/// a later run was asked to try it again.
pub fn a_chain_keeps_what_failed()
    ensures { ChainKeepsFailed }
{}

/// What the first mapfile of a chain calls finished or tried, each stop after the chain finds so, if all files were
/// durable at first. What is tried may be taken back by a run that was asked to try again.
pub fn a_chain_keeps_what_is_old()
    ensures { ChainKeepsOld }
{}

/// If a read follows the first ones, at least as many saves return as came due in these, whatever they kept.
pub fn due_saves_return()
    ensures { DueSavesReturn }
{}

/// Once a later read has begun to be written, at least as many saves have returned as came due in the first reads.
pub fn due_saves_have_returned()
    ensures { DueSavesHaveReturned }
{}

/// Once a save came due after some reads and a later read has begun to be written, every stop finds finished what those
/// reads gave.
pub fn loss_is_bounded_by_dues()
    ensures { LossIsBoundedByDues }
{}

/// A failed call is a rescue's last. Nothing was kept of the reads after those whose bytes had begun to be written by
/// then, and after a write that fails there are none.
pub fn reads_wait()
    ensures { ReadsWait }
{}

/// A rescue whose barrier never returned has read nothing.
pub fn reads_come_after_the_barrier()
    ensures { ReadsComeAfterTheBarrier }
{}

/// If a call on the files is listed as failed, the answer names one of its kind.
pub fn a_failed_call_is_answered()
    ensures { FailedCallIsAnswered }
{}

/// If the answer names a failed call, one has failed, even if none is listed.
pub fn an_answered_call_is_counted()
    ensures { AnsweredCallIsCounted }
{}

/// A rescue whose run began reads the clock once, twice more for each read that was answered, and once more for one
/// that was lost.
pub fn each_read_is_timed()
    ensures { EachReadIsTimed }
{}

/// The laws by the clock speak of all reads, since each has its two readings of the clock.
pub fn each_read_is_an_event()
    ensures { EachReadIsAnEvent }
{}

/// The bound on what a stop costs holds of whatever goes as a rescue does, even if no call of `ddrescue` made it.
pub fn loss_is_bounded_in_any_rescue()
    ensures { LossIsBoundedIn }
{}

/// A run whose clock goes on by 40 seconds saves what is older.
pub fn it_saves_what_is_old()
    ensures { SavesWhatIsOld }
{}

/// A stop within the write after that save finds what it has, and nothing newer.
pub fn a_stop_finds_what_is_old()
    ensures { StopFindsWhatIsOld }
{}

/// That stop is a case of the bound on what a stop costs.
pub fn a_stop_keeps_what_is_old()
    ensures { StopKeepsWhatIsOld }
{}
