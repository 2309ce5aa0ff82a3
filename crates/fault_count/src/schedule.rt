//! Which calls of a form in memory are to fail.
ghost use Rattle.std.specs.Prelude.{◌≡◌, ◌↔◌, IsTrue, OnOk, OnErr, MatchOption};
ghost use Rattle.fault_count.specs.Schedule.{no_schedule, with_call, with_failing, with_failing_after, FailsAfter, FailsNext};

use std::alloc::{AllocError, Global};
use std::marker::Model;

/// Which calls of an object in memory are to fail, after how many of their steps, and how many calls were made.
#[derive(Drop)]
pub struct FaultSchedule {
    failing: Vec<(u64, u64)>,
    made: u64,
}

impl Model for FaultSchedule {
    ghost use Rattle.fault_count.specs.Schedule.{Schedule};

    ghost Value = { Schedule };

    ghost view = { λ s. record { failing = s.failing.items; made = s.made } };
}

impl FaultSchedule {
    /// No call is to fail, and none was made.
    pub fn new(alloc: Global) -> FaultSchedule
        ensures { result ≡ no_schedule }
    {
        FaultSchedule {
            failing: Vec::new(alloc),
            made: 0,
        }
    }

    /// Has the call with this number fail, counted from 1 over all calls.
    pub fn fail_call(&mut self, number: u64) -> Result<(), AllocError>
        ensures added { OnOk result (self.new ≡ with_failing number self.old) }
        ensures kept { OnErr result (self.new ≡ self.old) }
    {
        self.fail_call_after(number, 0)
    }

    /// Has the call with this number fail after some of its steps, counted from 1 over all calls.
    pub fn fail_call_after(&mut self, number: u64, steps: u64) -> Result<(), AllocError>
        ensures added { OnOk result (self.new ≡ with_failing_after number steps self.old) }
        ensures kept { OnErr result (self.new ≡ self.old) }
    {
        self.failing.push((number, steps))?;
        Ok(())
    }

    /// Counts a call, and answers whether it is to fail.
    pub fn count_call(&mut self) -> bool
        ensures counted { self.new ≡ with_call self.old }
        ensures fails { IsTrue result ↔ FailsNext self.old }
    {
        self.count_steps().is_some()
    }

    /// Counts a call, and answers how many steps it makes before it fails, if it is to fail.
    pub fn count_steps(&mut self) -> Option<u64>
        ensures counted { self.new ≡ with_call self.old }
        ensures fails { MatchOption result (FailsNext self.old → ⊥) (λ steps. FailsAfter self.old steps) }
    {
        self.made = self.made.saturating_add(1);
        for (number, steps) in &self.failing {
            if *number == self.made {
                return Some(*steps);
            }
        }
        None
    }
}
