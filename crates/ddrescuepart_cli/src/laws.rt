//! What the definitions mean.
ghost use Rattle.ddrescuepart_cli.specs.Laws.{HasOneVerdict, IsBroughtUnless, PartKeepsPromises};

/// What a disk gives at each place leads to one verdict at most.
pub fn disks_have_one_verdict()
    ensures { HasOneVerdict }
{}

/// Each answer is the one that the records lead to, a refusal of words, a failure or lack of memory.
pub fn nothing_else_is_answered()
    ensures { IsBroughtUnless }
{}

/// `ddrescuepart` keeps what every program promises.
pub fn promises_are_kept()
    ensures { PartKeepsPromises }
{}
