//! A range of positions that can't be read, for some attempts or for good.
ghost use Rattle.std.specs.Prelude.{◌≡◌, if◌then◌else◌};
ghost use Rattle.faulty_source.specs.Memory.{fails_still, is_bad_at, one_less};

/// Positions from `from` up to `to`, in bytes. Reads there fail `attempts` times, or always if that is `None`.
#[derive(Clone, Copy, Debug, PartialEq, Eq)]
pub struct BadRange {
    pub from: u64,
    pub to: u64,
    pub attempts: Option<u32>,
}

impl BadRange {
    fn fails_still(&self) -> bool
        ensures { result ≡ fails_still self.now.attempts }
    {
        match self.attempts {
            None => true,
            Some(left) => left > 0,
        }
    }

    /// Whether a read of `x` fails here.
    pub fn is_bad_at(&self, x: u64) -> bool
        ensures { result ≡ is_bad_at x self.now }
    {
        self.from <= x && x < self.to && self.fails_still()
    }

    /// Takes one attempt if a read of `x` fails here and the attempts are counted.
    pub fn meet(&mut self, x: u64)
        ensures { self.new ≡ (if is_bad_at x self.old
            then record self.old { attempts = one_less self.old.attempts } else self.old) }
    {
        if self.is_bad_at(x)
            && let Some(left) = self.attempts
        {
            self.attempts = Some(left.saturating_sub(1));
        }
    }
}
