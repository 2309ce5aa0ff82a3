//! A clock that stands still.
ghost use Rattle.std.specs.Prelude.{◌≡◌, true, false, [], All};

use rescue_console::clock::Clock;

/// A clock that reads 0 each time. It counts its readings, and tells them until the count is at the end of its type.
#[derive(Drop)]
pub struct StillClock {
    made: u64,
}

impl StillClock {
    ghost use Rattle.rescue_sample.specs.StillState.{state_of};

    /// A clock that wasn't read yet.
    pub fn new() -> StillClock
        ensures { state_of result ≡ record { tells = true; readings = []; is_scheduled = false; schedule = [] } }
    {
        StillClock { made: 0 }
    }

    /// Whether it still tells its readings, each of which is 0.
    pub fn tells(&self) -> bool
        ensures tells { result ≡ (state_of self.now).tells }
        ensures still { All (λ t. t ≡ 0) (state_of self.now).readings }
    {
        self.made < u64::MAX
    }
}

impl Clock for StillClock {
    ghost use Rattle.rescue_sample.specs.StillState.{state_of};

    ghost state = { state_of };

    fn now_ms(&mut self) -> u64 {
        self.made = self.made.saturating_add(1);
        0
    }
}
