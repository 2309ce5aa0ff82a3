//! What the definitions mean.
ghost use Rattle.std.specs.Prelude.{ℕ, List};
ghost use Rattle.block_list.specs.declared.status.Status.{Status};
ghost use Rattle.rescue_domain.specs.Testing.{finished_front, IsFront};

/// What is counted before the first position that isn't finished is finished, and goes on up to that one.
pub fn a_front_is_finished()
    ensures { (statuses : List Status) (pos n : ℕ) → IsFront statuses pos n (finished_front statuses pos n) }
{}
