//! What the definitions mean.
ghost use Rattle.turn_laws.specs.EndLaws.{DoneEndsWell, NextPassIsUnderWay, PhasesEndWell, RunStaysUnderWay, SinceStartIsWell, StartIsUnderWay, StoppedIsSaved, UnderWayEndsWell, WholeRunIsHeld, WholeRunIsKept};
ghost use Rattle.turn_laws.specs.Laws.{CloseIsHeld, HaltedTurnIsHeld, RestIsSafe, RunIsHeld, RunStaysSafe, SafeIsHeld, TurnIsHeld, TurnStaysSafe};
ghost use Rattle.turn_laws.specs.NowLaws.{CloseStaysSafeNow, HaltedStaysSafeNow, NowIsSafe, PhaseStaysSafeNow, RestIsSafeNow, RunStaysSafeNow, StoppedStaysSafeNow, TurnStaysSafeNow};
ghost use Rattle.turn_laws.specs.PassLaws.{PastIsUnderWay, CopyingIsUnderWay, SpentLeadsPast, TypedLeadsPast, UnderWayMayCopy};
ghost use Rattle.turn_laws.specs.PhaseLaws.{AlikeAreSafe, HaltedTurnStaysSafe, PhaseIsHeld, PhaseStaysSafe, StoppedTurnsAreHeld, StoppedTurnsStaySafe};

/// A run is safe if it begins on an open output and a mapfile that are durable.
pub fn a_run_begins_safe()
    ensures { RestIsSafe }
{}

/// If a run is safe, what may be found is held.
pub fn what_is_safe_is_held()
    ensures { SafeIsHeld }
{}

/// A run that goes on by some events, with all their calls, stays safe.
pub fn a_run_stays_safe()
    ensures { RunStaysSafe }
{}

/// At each stop of a safe run's calls, and of the calls of the run's end, what may be found is held.
pub fn a_run_is_held()
    ensures { RunIsHeld }
{}

/// A whole turn of a safe run leaves it safe.
pub fn a_turn_stays_safe()
    ensures { TurnStaysSafe }
{}

/// At each stop within a turn of a safe run, what may be found is held.
pub fn a_turn_is_held()
    ensures { TurnIsHeld }
{}

/// At each stop within a turn of a safe run that stopped, what may be found is held.
pub fn a_halted_turn_is_held()
    ensures { HaltedTurnIsHeld }
{}

/// A turn that stopped leaves the run safe, unless it stopped at a call on the files, after which none is made.
pub fn a_halted_turn_stays_safe()
    ensures { HaltedTurnStaysSafe }
{}

/// If a run is safe, so is one in a state alike, as the start of a next pass is.
pub fn alike_states_are_safe_alike()
    ensures { AlikeAreSafe }
{}

/// Whole turns of a safe run, as each phase makes them, leave it safe where they came to.
pub fn a_phase_stays_safe()
    ensures { PhaseStaysSafe }
{}

/// At each stop within whole turns of a safe run, what may be found is held.
pub fn a_phase_is_held()
    ensures { PhaseIsHeld }
{}

/// Turns up to one that stopped leave the run safe, unless that stopped at a call on the files.
pub fn stopped_turns_stay_safe()
    ensures { StoppedTurnsStaySafe }
{}

/// At each stop within turns of a safe run up to one that stopped, for whatever cause, what may be found is held.
pub fn stopped_turns_are_held()
    ensures { StoppedTurnsAreHeld }
{}

/// At each stop within the close of a safe run, however it ended, what may be found is held.
pub fn a_close_is_held()
    ensures { CloseIsHeld }
{}

/// A run whose files are as `IsSafeNow` says is safe however it goes on.
pub fn what_is_safe_now_is_safe()
    ensures { NowIsSafe }
{}

/// Files that are durable as they read are as `IsSafeNow` says when a run begins.
pub fn a_run_begins_safe_now()
    ensures { RestIsSafeNow }
{}

/// Files that are as `IsSafeNow` says stay so over events with all their calls.
pub fn a_run_stays_safe_now()
    ensures { RunStaysSafeNow }
{}

/// Files that are as `IsSafeNow` says stay so over a whole turn.
pub fn a_turn_stays_safe_now()
    ensures { TurnStaysSafeNow }
{}

/// Files that are as `IsSafeNow` says stay so over a turn that stopped, also at a call on the files that failed. Only after
/// a failed sync of the output they may not, and then what may be found is held.
pub fn a_halted_turn_stays_safe_now()
    ensures { HaltedStaysSafeNow }
{}

/// Files that are as `IsSafeNow` says stay so over the whole turns of a phase.
pub fn a_phase_stays_safe_now()
    ensures { PhaseStaysSafeNow }
{}

/// Files that are as `IsSafeNow` says stay so over turns up to one that stopped, for whatever cause it stopped, except a
/// failed sync of the output. After that what may be found is held.
pub fn stopped_turns_stay_safe_now()
    ensures { StoppedStaysSafeNow }
{}

/// Files that are as `IsSafeNow` says stay so over the last save, whole or stopped at whatever call, except a failed sync
/// of the output. After that what may be found is held.
pub fn a_close_stays_safe_now()
    ensures { CloseStaysSafeNow }
{}

/// A run is under way at its start.
pub fn a_start_is_under_way()
    ensures { StartIsUnderWay }
{}

/// A run that is under way stays under way, whatever it reads.
pub fn a_run_stays_under_way()
    ensures { RunStaysUnderWay }
{}

/// A run at the start of its next pass is under way, if the present pass has no request.
pub fn a_next_pass_is_under_way()
    ensures { NextPassIsUnderWay }
{}

/// From wherever it is under way, a run that goes on to its end leaves each position rescued, not to be tried further,
/// or bad, and failed in each pass of retrying that still came to it.
pub fn a_run_under_way_ends_well()
    ensures { UnderWayEndsWell }
{}

/// A run that ends well since its own start ends well as a whole run.
pub fn what_is_well_since_the_start_is_well()
    ensures { SinceStartIsWell }
{}

/// Whole turns of a run that is under way, to past the last phase, and the close after them, if it answers that the
/// run is done, leave no request, each position left well, and the last map saved.
pub fn phases_end_well()
    ensures { PhasesEndWell }
{}

/// A whole run that answers that it is done leaves no request, each position left well, and the last map saved.
pub fn a_done_run_ends_well()
    ensures { DoneEndsWell }
{}

/// A whole run that stopped, but not at a call on the files, saved its map as it was or, without a mapfile, synced
/// its output.
pub fn a_stopped_run_is_saved()
    ensures { StoppedIsSaved }
{}

/// At each stop within a whole run of a safe beginning, however it ends, what may be found is held.
pub fn a_whole_run_is_held()
    ensures { WholeRunIsHeld }
{}

/// The mapfile found at a stop within a whole run is one that the run saved, or the one that it began with, and it is
/// no older than the last save that returned.
pub fn a_whole_run_is_kept()
    ensures { WholeRunIsKept }
{}

/// A run whose passes up to a phase's end are spent may begin those that are left of them, and is past the phase then.
pub fn spent_passes_lead_past()
    ensures { SpentLeadsPast }
{}

/// By what its type knows, a run that is still copying may be handed, over spent passes, to the phase that takes its
/// type.
pub fn a_typed_run_leads_past()
    ensures { TypedLeadsPast }
{}

/// Copying takes a run that is under way in any of its passes.
pub fn a_run_under_way_may_copy()
    ensures { UnderWayMayCopy }
{}

/// Each run that copying takes is under way.
pub fn what_may_copy_is_under_way()
    ensures { CopyingIsUnderWay }
{}

/// A run that is past a phase is under way, by what its type knows.
pub fn what_is_past_is_under_way()
    ensures { PastIsUnderWay }
{}
