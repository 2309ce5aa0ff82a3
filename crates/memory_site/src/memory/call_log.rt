//! The calls that were made, and which of them failed.
ghost use Rattle.std.specs.Prelude.{◌≡◌, ◌≤◌, List, [], ◌∷◌, ◌++◌, Ok, IfOk, OnOk, OnErr, IsErr};
ghost use Rattle.fault_count.specs.Counts.{raised, HasCause};
ghost use Rattle.fault_count.specs.Schedule.{no_schedule, with_call, with_failing_after};
ghost use Rattle.crash_site.specs.Calls.{Entry};
ghost use Rattle.crash_site.specs.CallsMade.{call_name};
ghost use Rattle.memory_site.specs.CallLog.{call_of, entry_as, entries_of};

use crash_site::fault::fault;
use crash_site::site::{MapRead, SiteCall, SiteFault};
use fault_count::FaultCount;
use fault_count::schedule::FaultSchedule;
use std::alloc::{AllocError, Global};

/// A call, with a copy of what it was handed; a read has what it answers as well.
#[derive(Drop)]
pub(crate) enum Act {
    ImageOpen(Vec<u8>, bool),
    ImageRead(u64, usize, usize),
    ImageWrite(u64, Vec<u8>),
    ImageSync,
    MapRead(Vec<u8>, u64, usize, MapRead),
    DraftBegin(Vec<u8>),
    DraftAppend(Vec<u8>),
    DraftSync,
    DraftPublish(Vec<u8>),
    MapSettle(Vec<u8>),
    MapRemove(Vec<u8>),
}

impl Act {
    /// The name of the call.
    pub(crate) fn name(&self) -> SiteCall
        ensures { result ≡ call_name (call_of self.now) }
    {
        match self {
            Act::ImageOpen(_, _) => SiteCall::ImageOpen,
            Act::ImageRead(_, _, _) => SiteCall::ImageRead,
            Act::ImageWrite(_, _) => SiteCall::ImageWrite,
            Act::ImageSync => SiteCall::ImageSync,
            Act::MapRead(_, _, _, _) => SiteCall::MapRead,
            Act::DraftBegin(_) => SiteCall::DraftBegin,
            Act::DraftAppend(_) => SiteCall::DraftAppend,
            Act::DraftSync => SiteCall::DraftSync,
            Act::DraftPublish(_) => SiteCall::DraftPublish,
            Act::MapSettle(_) => SiteCall::MapSettle,
            Act::MapRemove(_) => SiteCall::MapRemove,
        }
    }
}

/// A call, and how many steps it made before it failed, if it did.
#[derive(Drop)]
pub(crate) struct LoggedCall {
    pub(crate) act: Act,
    pub(crate) failed: Option<u64>,
}

/// The calls that were made, those that are to fail, and how many failed.
#[derive(Drop)]
pub(crate) struct CallLog {
    pub(crate) listed: Vec<LoggedCall>,
    pub(crate) schedule: FaultSchedule,
    pub(crate) faults: FaultCount,
    pub(crate) starving: FaultCount,
}

impl CallLog {
    /// No call, and none that is to fail.
    pub(crate) fn new(alloc: Global) -> CallLog
        ensures entries { entries_of result ≡ [] }
        ensures schedule { result.schedule ≡ no_schedule }
        ensures faults { result.faults ≡ 0 }
        ensures starving { result.starving ≡ 0 }
    {
        CallLog {
            listed: Vec::new(alloc),
            schedule: FaultSchedule::new(alloc),
            faults: FaultCount::new(),
            starving: FaultCount::new(),
        }
    }

    /// Has the call with this number fail after some of its steps, counted from 1 over all calls.
    pub(crate) fn fail_call_after(&mut self, number: u64, steps: u64) -> Result<(), AllocError>
        ensures schedule { OnOk result (self.new.schedule ≡ with_failing_after number steps self.old.schedule) }
        ensures same { OnErr result (self.new.schedule ≡ self.old.schedule) }
        ensures entries { entries_of self.new ≡ entries_of self.old }
        ensures faults { self.new.faults ≡ self.old.faults }
        ensures starving { self.new.starving ≡ self.old.starving }
    {
        self.schedule.fail_call_after(number, steps)
    }

    /// Forgets the calls, and keeps their number.
    pub(crate) fn forget(&mut self)
        ensures entries { entries_of self.new ≡ [] }
        ensures schedule { self.new.schedule ≡ self.old.schedule }
        ensures faults { self.new.faults ≡ self.old.faults }
        ensures starving { self.new.starving ≡ self.old.starving }
    {
        self.listed.clear();
    }

    /// Counts lack of memory.
    pub(crate) fn starve(&mut self) -> SiteFault
        ensures schedule { self.new.schedule ≡ self.old.schedule }
        ensures entries { entries_of self.new ≡ entries_of self.old }
        ensures faults { self.new.faults ≡ raised self.old.faults }
        ensures later { self.old.faults ≤ self.new.faults }
        ensures starving { self.new.starving ≡ raised self.old.starving }
    {
        self.starving.raise();
        fault(&mut self.faults)
    }

    /// Counts a call that found no memory for its entry.
    pub(crate) fn miss(&mut self) -> SiteFault
        ensures schedule { self.new.schedule ≡ with_call self.old.schedule }
        ensures entries { entries_of self.new ≡ entries_of self.old }
        ensures faults { self.new.faults ≡ raised self.old.faults }
        ensures later { self.old.faults ≤ self.new.faults }
        ensures starving { self.new.starving ≡ raised self.old.starving }
    {
        self.schedule.count_call();
        self.starve()
    }

    /// Lists a call that is made, or that failed after this many steps.
    pub(crate) fn list(&mut self, act: Act, failed: Option<u64>) -> Result<(), SiteFault>
        ensures listed { OnOk result (entries_of self.new
            ≡ entries_of self.old ++ entry_as failed (call_of act) ∷ []) }
        ensures kept { OnErr result (entries_of self.new ≡ entries_of self.old) }
        ensures cause { HasCause self.old.faults self.new.faults result }
        ensures schedule { self.new.schedule ≡ self.old.schedule }
        ensures why { OnErr result (self.new.starving ≡ raised self.old.starving) }
        ensures fed { OnOk result (self.new.starving ≡ self.old.starving) }
    {
        if self.listed.push(LoggedCall { act, failed }).is_err() {
            return Err(self.starve());
        }
        Ok(())
    }

    /// The outcome of the call that was listed last. If it found no memory its entry is taken back.
    pub(crate) fn settle<T>(&mut self, outcome: Result<T, AllocError>) -> Result<T, SiteFault>
        ensures value { IfOk result (λ value. outcome ≡ Ok value) }
        ensures kept { OnOk result (entries_of self.new ≡ entries_of self.old) }
        ensures withdrawn { OnErr result ((es : List Entry) (e : Entry) → entries_of self.old
            ≡ es ++ e ∷ [] → entries_of self.new ≡ es) }
        ensures error { OnErr result (IsErr outcome) }
        ensures cause { HasCause self.old.faults self.new.faults result }
        ensures schedule { self.new.schedule ≡ self.old.schedule }
        ensures why { OnErr result (self.new.starving ≡ raised self.old.starving) }
        ensures fed { OnOk result (self.new.starving ≡ self.old.starving) }
    {
        match outcome {
            Ok(value) => Ok(value),
            Err(_) => {
                let _ = self.listed.pop();
                Err(self.starve())
            }
        }
    }
}
