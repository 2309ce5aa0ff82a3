//! An input, a clock and a console that share a count of reads. So a scene says what is asked of the clock, and put on
//! the console, between which reads.
ghost use Rattle.std.specs.Prelude.{false, []};
ghost use Rattle.fault_count.specs.Schedule.{no_schedule};
ghost use Rattle.memory_console.specs.MemoryState.{state_of_console};

use faulty_source::source::{Got, Source, SourceFault, SourceLost};
use itoa::Buffer;
use memory_console::memory::MemoryConsole;
use rescue_console::clock::Clock;
use rescue_console::console::{Channel, Console, ConsoleFault};
use std::cell::Cell;
use std::rc::Rc;

/// A source that counts the reads that were answered.
#[derive(Drop)]
pub struct PacedSource<'a, S> {
    inner: &'a mut S,
    reads: Rc<Cell<u64>>,
}

impl<'a, S: Source> PacedSource<'a, S> {
    pub fn new(inner: &'a mut S, reads: Rc<Cell<u64>>) -> PacedSource<'a, S> {
        PacedSource { inner, reads }
    }
}

impl<S: Source> Source for PacedSource<'_, S> {
    ghost state = { λ s. S.state s.inner.now };

    fn open_input(&mut self, name: &str) -> Result<u64, SourceFault> {
        self.inner.open_input(name)
    }

    fn read_at(&mut self, pos: u64, buf: &mut [u8]) -> Result<Got, SourceLost> {
        let got = self.inner.read_at(pos, buf)?;
        self.reads.set(self.reads.get().saturating_add(1));
        Ok(got)
    }
}

/// A clock that reads by the number of reads so far. Past the last of its readings that one is repeated; with none it
/// reads 0.
#[derive(Drop)]
pub struct PacedClock<'a> {
    readings: &'a [u64],
    reads: Rc<Cell<u64>>,
}

impl<'a> PacedClock<'a> {
    /// A clock of these readings, in milliseconds since 1970.
    pub fn new(readings: &'a [u64], reads: Rc<Cell<u64>>) -> PacedClock<'a> {
        PacedClock { readings, reads }
    }
}

impl Clock for PacedClock<'_> {
    ghost state = { λ _. record {
      tells = false;
      readings = [];
      is_scheduled = false;
      schedule = [];
    } };

    fn now_ms(&mut self) -> u64 {
        let last = self.readings.len().saturating_sub(1);
        let next = self.reads.get().min(last as u64) as usize;
        self.readings.get(next).copied().unwrap_or(0)
    }
}

/// A console that puts before each piece how many reads there were.
#[derive(Drop)]
pub struct PacedConsole<'a> {
    inner: &'a mut MemoryConsole,
    reads: Rc<Cell<u64>>,
}

impl<'a> PacedConsole<'a> {
    pub fn new(inner: &'a mut MemoryConsole, reads: Rc<Cell<u64>>) -> PacedConsole<'a> {
        PacedConsole { inner, reads }
    }
}

impl Console for PacedConsole<'_> {
    ghost state = { λ c. record {
      tells = false;
      out = (state_of_console c.inner.now).out;
      err = (state_of_console c.inner.now).err;
      is_scheduled = false;
      schedule = no_schedule;
      starved = 0;
    } };

    fn put(&mut self, channel: Channel, piece: &[u8]) -> Result<(), ConsoleFault> {
        let mut buffer = Buffer::new();
        self.inner
            .put(channel, buffer.format(self.reads.get()).as_bytes())?;
        self.inner.put(channel, b" ")?;
        self.inner.put(channel, piece)
    }
}
