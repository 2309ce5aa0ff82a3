//! What a rescue asks a clock.
ghost use Rattle.rescue_console.specs.ClockState.{ClockState, Answers};

/// A clock in milliseconds since 1970. It never fails, and may go back.
pub trait Clock {
    /// What it tells: its readings so far.
    ghost state: { Self → ClockState };

    /// The time now, in milliseconds since 1970.
    fn now_ms(&mut self) -> u64
        ensures { Answers result (state self.old) (state self.new) };
}
