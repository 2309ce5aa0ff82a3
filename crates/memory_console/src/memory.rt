//! Clock, console and feed in memory, which tell all and fail on request.
ghost use Rattle.std.specs.Prelude.{◌≡◌, ◌⊎◌, ◌≤◌, min, true, IsTrue, if◌then◌else◌, [], ◌++◌, length, take, drop, is_ok, OnOk, OnErr, IsErr};
ghost use Rattle.fault_count.specs.Counts.{raised, HasCause};
ghost use Rattle.fault_count.specs.Schedule.{no_schedule, with_failing};
ghost use Rattle.rescue_console.specs.ClockState.{reading_at};
ghost use Rattle.rescue_console.specs.ConsoleState.{channel_of};

use block_list::tiles::NoMemory;
use fault_count::FaultCount;
use fault_count::schedule::FaultSchedule;
use rescue_console::clock::Clock;
use rescue_console::console::{Channel, Console, ConsoleFault};
use rescue_console::feed::{Feed, FeedFault};
use std::alloc::Global;

/// A clock that reads by a schedule, and repeats the schedule's last reading. An empty schedule reads 0.
#[derive(Drop)]
pub struct MemoryClock {
    schedule: Vec<u64>,
    made: u64,
}

impl MemoryClock {
    ghost use Rattle.memory_console.specs.MemoryState.{state_of_clock};

    /// A clock that reads these, in milliseconds since 1970.
    pub fn new(readings: Vec<u64>) -> MemoryClock
        ensures { state_of_clock result ≡ record {
          tells = true;
          readings = [];
          is_scheduled = true;
          schedule = readings.items;
        } }
    {
        MemoryClock {
            schedule: readings,
            made: 0,
        }
    }

    /// The next reading.
    fn next_reading(&self) -> u64
        ensures { result ≡ reading_at self.now.schedule.items self.now.made }
    {
        let last = self.schedule.len().saturating_sub(1);
        let next = self.made.min(last as u64) as usize;
        self.schedule.get(next).copied().unwrap_or(0)
    }
}

impl Clock for MemoryClock {
    ghost use Rattle.memory_console.specs.MemoryState.{state_of_clock};

    ghost state = { state_of_clock };

    fn now_ms(&mut self) -> u64 {
        let now = self.next_reading();
        self.made = self.made.saturating_add(1);
        now
    }
}

/// What was put on a channel, and how often a put there failed.
#[derive(Drop)]
struct MemoryChannel {
    text: Vec<u8>,
    faults: FaultCount,
}

impl MemoryChannel {
    fn new(alloc: Global) -> MemoryChannel
        ensures text { result.text.items ≡ [] }
        ensures faults { result.faults ≡ 0 }
    {
        MemoryChannel {
            text: Vec::new(alloc),
            faults: FaultCount::new(),
        }
    }

    /// Puts a whole piece, or nothing of it if it is to fail or finds no memory.
    fn put(
        &mut self,
        piece: &[u8],
        fails: bool,
        starving: &mut FaultCount,
    ) -> Result<(), ConsoleFault>
        ensures text { self.new.text.items ≡ (if is_ok result
            then self.old.text.items ++ piece.now else self.old.text.items) }
        ensures cause { HasCause self.old.faults self.new.faults result }
        ensures fails { IsTrue fails → IsErr result }
        ensures why { OnErr result ((IsTrue fails × (starving.new ≡ starving.old))
            ⊎ (starving.new ≡ raised starving.old)) }
        ensures fed { OnOk result (starving.new ≡ starving.old) }
    {
        if fails {
            self.faults.raise();
            return Err(ConsoleFault);
        }
        if self.text.extend_from_slice(piece).is_err() {
            starving.raise();
            self.faults.raise();
            return Err(ConsoleFault);
        }
        Ok(())
    }
}

/// A console in memory. A put whose number was handed to `fail_call` fails, and so does one that finds no memory, which
/// is counted. Of a put that fails nothing is put.
#[derive(Drop)]
pub struct MemoryConsole {
    out: MemoryChannel,
    err: MemoryChannel,
    schedule: FaultSchedule,
    starving: FaultCount,
}

impl MemoryConsole {
    ghost use Rattle.memory_console.specs.MemoryState.{state_of_console};

    /// A console with nothing on its channels.
    pub fn new(alloc: Global) -> MemoryConsole
        ensures { state_of_console result ≡ record {
          tells = true;
          out = record { text = []; faults = 0 };
          err = record { text = []; faults = 0 };
          is_scheduled = true;
          schedule = no_schedule;
          starved = 0;
        } }
    {
        MemoryConsole {
            out: MemoryChannel::new(alloc),
            err: MemoryChannel::new(alloc),
            schedule: FaultSchedule::new(alloc),
            starving: FaultCount::new(),
        }
    }

    /// Has the put with this number fail, counted from 1 over the puts on both channels.
    pub fn fail_call(&mut self, number: u64) -> Result<(), NoMemory>
        ensures added { OnOk result (state_of_console self.new ≡ record (state_of_console self.old)
            { schedule = with_failing number (state_of_console self.old).schedule }) }
        ensures kept { OnErr result (state_of_console self.new ≡ state_of_console self.old) }
    {
        Ok(self.schedule.fail_call(number)?)
    }

    /// What is on a channel.
    pub fn text(&self, channel: Channel) -> &[u8]
        ensures { result.now ≡ (channel_of channel (state_of_console self.now)).text }
    {
        match channel {
            Channel::Out => &self.out.text,
            Channel::Err => &self.err.text,
        }
    }

    /// How many puts found no memory.
    pub fn starved(&self) -> u64
        ensures { result ≡ (state_of_console self.now).starved }
    {
        self.starving.get()
    }
}

impl Console for MemoryConsole {
    ghost use Rattle.memory_console.specs.MemoryState.{state_of_console};

    ghost state = { state_of_console };

    fn put(&mut self, channel: Channel, piece: &[u8]) -> Result<(), ConsoleFault> {
        let fails = self.schedule.count_call();
        match channel {
            Channel::Out => self.out.put(piece, fails, &mut self.starving),
            Channel::Err => self.err.put(piece, fails, &mut self.starving),
        }
    }
}

/// Copies to the buffer's front as many bytes as there are and as it holds, and answers how many.
fn copy_front(bytes: &[u8], buf: &mut [u8]) -> usize
    ensures count { result ≡ min (length buf.old) (length bytes.now) }
    ensures front { take result buf.new ≡ take result bytes.now }
{
    let count = buf.len().min(bytes.len());
    buf[..count].copy_from_slice(&bytes[..count]);
    count
}

/// A feed in memory. A take whose number was handed to `fail_call` fails; any other gives as many bytes as there are
/// and as the buffer holds.
#[derive(Drop)]
pub struct MemoryFeed {
    bytes: Vec<u8>,
    taken: usize,
    schedule: FaultSchedule,
    faults: FaultCount,
    ghost within: { taken ≤ length bytes.items },
}

impl MemoryFeed {
    ghost use Rattle.memory_console.specs.MemoryState.{state_of_feed};

    /// A feed of these bytes.
    pub fn new(alloc: Global, bytes: Vec<u8>) -> MemoryFeed
        ensures { state_of_feed result ≡ record {
          tells = true;
          left = bytes.items;
          faults = 0;
          is_scheduled = true;
          schedule = no_schedule;
        } }
    {
        MemoryFeed {
            bytes,
            taken: 0,
            schedule: FaultSchedule::new(alloc),
            faults: FaultCount::new(),
        }
    }

    /// Has the take with this number fail, counted from 1 over all takes.
    pub fn fail_call(&mut self, number: u64) -> Result<(), NoMemory>
        ensures added { OnOk result (state_of_feed self.new ≡ record (state_of_feed self.old)
            { schedule = with_failing number (state_of_feed self.old).schedule }) }
        ensures kept { OnErr result (state_of_feed self.new ≡ state_of_feed self.old) }
    {
        Ok(self.schedule.fail_call(number)?)
    }

    /// The bytes that weren't taken yet.
    fn rest(&self) -> &[u8]
        ensures { result.now ≡ drop self.now.taken self.now.bytes.items }
    {
        &self.bytes[self.taken..]
    }
}

impl Feed for MemoryFeed {
    ghost use Rattle.memory_console.specs.MemoryState.{state_of_feed};

    ghost state = { state_of_feed };

    fn take(&mut self, buf: &mut [u8]) -> Result<usize, FeedFault> {
        if self.schedule.count_call() {
            self.faults.raise();
            return Err(FeedFault);
        }
        let count = copy_front(self.rest(), buf);
        self.taken += count;
        Ok(count)
    }
}
