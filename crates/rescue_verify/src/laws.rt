//! What the pieces mean.
ghost use Rattle.rescue_verify.specs.Laws.{NoneIsReadTwice};

/// A comparison asks for each position by one read at most.
pub fn none_is_read_twice()
    ensures { NoneIsReadTwice }
{}
