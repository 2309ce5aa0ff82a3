//! What the definitions mean.
ghost use Rattle.partition_domain.specs.Laws.{HasOneAnswer};

/// What a disk gives at each place leads to one answer at most.
pub fn disks_have_one_answer()
    ensures { HasOneAnswer }
{}
