//! How often calls of an outside object, such as a disk or a folder, have failed.
#![tactic(auto)]

pub mod schedule;

ghost use Rattle.std.specs.Prelude.{◌≡◌, ◌≤◌, ℕ};
ghost use Rattle.fault_count.specs.Counts.{raised};

use std::marker::Model;

/// A count of faults. It starts at 0, never falls, and stays at 2^64 - 1.
#[derive(Debug, Drop)]
pub struct FaultCount {
    count: u64,
}

impl Model for FaultCount {
    ghost Value = { ℕ };

    ghost view = { λ c. c.count };
}

impl FaultCount {
    /// A count of no fault.
    pub fn new() -> FaultCount
        ensures { result ≡ 0 }
    {
        FaultCount { count: 0 }
    }

    /// Counts one more fault.
    pub fn raise(&mut self)
        ensures raised { self.new ≡ raised self.old }
        ensures later { self.old ≤ self.new }
    {
        self.count = self.count.saturating_add(1);
    }

    /// The faults so far.
    pub fn get(&self) -> u64
        ensures { result ≡ self.now }
    {
        self.count
    }
}
