//! What the promise means.
ghost use Rattle.ddrescueverify_cli.specs.Laws.{HasOneVerdict, IsComparedUnless, JudgedIsByPosition, LooksAreWithin};
ghost use Rattle.ddrescueverify_cli.specs.Laws.{NoneIsReadTwice, NothingBecomesFinished, SavedIsVerified, VerifyKeepsPromises};

/// `ddrescueverify` keeps what every program promises.
pub fn promises_are_kept()
    ensures { VerifyKeepsPromises }
{}

/// If the map was saved, the mapfile is the verified one.
pub fn saved_is_verified()
    ensures { SavedIsVerified }
{}

/// If nothing failed, nothing is refused and memory doesn't run out, the answer says whether something differs.
pub fn nothing_else_is_answered()
    ensures { IsComparedUnless }
{}

/// An outside has one verdict at most.
pub fn comparisons_have_one_verdict()
    ensures { HasOneVerdict }
{}

/// A call asks for each position of the input by one read at most.
pub fn none_is_read_twice()
    ensures { NoneIsReadTwice }
{}

/// The pieces that a call looks at end within the map that its mapfile stands for, so the two laws below are about it.
pub fn looks_are_within()
    ensures { LooksAreWithin }
{}

/// The map after looks has `?` at each position of a piece that differs, and everywhere else what it had.
pub fn judged_is_by_position()
    ensures { JudgedIsByPosition }
{}

/// What the map after looks calls finished was finished before, and no piece that differs has it.
pub fn nothing_becomes_finished()
    ensures { NothingBecomesFinished }
{}
