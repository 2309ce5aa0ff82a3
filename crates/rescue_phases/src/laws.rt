//! What the definitions mean.
ghost use Rattle.rescue_phases.specs.Laws.{AlikeGoAlike, NextPassIsAlike, ShownMayCopy, StartMayCopy};
ghost use Rattle.rescue_phases.specs.PhaseLaws.{CopiedIsPast, StoppedTurnsJoin, TurnsJoin};

/// States that are alike have the same further runs, by the same moves.
pub fn alike_go_alike()
    ensures { AlikeGoAlike }
{}

/// A state at the start of its next pass is alike, if the present one has no request.
pub fn a_next_pass_is_alike()
    ensures { NextPassIsAlike }
{}

/// A run at its start may go on with copying.
pub fn a_start_may_copy()
    ensures { StartMayCopy }
{}

/// Whatever state a run shows until its first event, it may go on with copying as it could.
pub fn a_shown_state_may_copy()
    ensures { ShownMayCopy }
{}

/// A run in copying's last pass, which has no request left, is past copying.
pub fn what_copied_is_past()
    ensures { CopiedIsPast }
{}

/// Whole turns after whole turns are whole turns.
pub fn turns_join()
    ensures { TurnsJoin }
{}

/// Turns up to one that stopped, after whole turns, are such turns.
pub fn stopped_turns_join()
    ensures { StoppedTurnsJoin }
{}
