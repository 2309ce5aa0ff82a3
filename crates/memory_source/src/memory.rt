//! An input in memory, which tells all and fails on request.
ghost use Rattle.std.specs.Prelude.{◌≡◌, ◌↔◌, ℕ, ◌+◌, ◌-◌, ◌<◌, ◌≤◌, ◌^◌, true, false, IsTrue, if◌then◌else◌, [], ◌∷◌, ◌++◌, length, map, take, slice_range, Contains, All, vec_capacity, IfOk, OnOk, OnErr};
ghost use Rattle.fault_count.specs.Schedule.{no_schedule, with_failing};
ghost use Rattle.faulty_source.specs.Got.{count_of, is_end};
ghost use Rattle.faulty_source.specs.ReadEntries.{entry_of, reading_of};
ghost use Rattle.faulty_source.specs.Memory.{name_limit, is_bad, met, ReadGives, bad_after, AreSeparate};

use block_list::tiles::NoMemory;
use fault_count::FaultCount;
use fault_count::schedule::FaultSchedule;
use faulty_source::bad_range::BadRange;
use faulty_source::journal::ReadEntry;
use faulty_source::source::{Got, Source, SourceFault, SourceLost};
use std::alloc::Global;

/// The first position from `pos` up to `end` at which a read fails, or `end`.
fn first_bad(bad: &[BadRange], pos: u64, end: u64) -> u64
    requires { pos ≤ end }
    ensures low { pos ≤ result }
    ensures high { result ≤ end }
    ensures good { (x : ℕ) → pos ≤ x → x < result → is_bad bad.now x ≡ false }
    ensures stops { result < end → is_bad bad.now result ≡ true }
{
    let mut stop = end;
    for range in bad {
        let start = range.from.max(pos);
        if start < stop && range.is_bad_at(start) {
            stop = start;
        }
    }
    stop
}

/// What a read of `asked` bytes at a position gives, of an input that ends here.
fn given(input_end: u64, bad: &[BadRange], pos: u64, asked: usize) -> Got
    requires { pos + asked < 2 ^ 63 }
    ensures { ReadGives input_end bad.now pos asked result }
{
    let end = (pos + asked as u64).min(input_end).max(pos);
    let stop = first_bad(bad, pos, end);
    let count = (stop - pos) as usize;
    if stop < end || count == asked {
        Got::Read(count)
    } else {
        Got::End(count)
    }
}

/// Copies bytes from a position on to the front of the buffer.
fn copy_part(bytes: &[u8], pos: u64, count: usize, buf: &mut [u8])
    requires fits { count ≤ length buf.old }
    requires there { count ≤ length bytes.now - pos }
    ensures { take count buf.new ≡ slice_range bytes.now pos (pos + count) }
{
    if count > 0 {
        let start = pos as usize;
        buf[..count].copy_from_slice(&bytes[start..start + count]);
    }
}

/// Takes one attempt from the ranges that a read met at `x`.
fn take_attempts(bad: &mut [BadRange], x: u64)
    ensures { bad.new ≡ met bad.old x }
{
    for range in bad.iter_mut() {
        range.meet(x);
    }
}

/// Takes one attempt from the ranges that a read met, if it failed.
fn end_read(bad: &mut [BadRange], pos: u64, asked: usize, got: Got)
    requires { pos + count_of got < 2 ^ 63 }
    ensures { bad.new ≡ bad_after bad.old pos asked got }
{
    if let Got::Read(given) = got
        && given < asked
    {
        take_attempts(bad, pos + given as u64);
    }
}

/// The greatest length of a name under which an input opens, in bytes, as on many file systems.
const NAME_LIMIT: usize = 4096;

/// An input in memory. It opens under any name of at most 4,096 bytes, except `missing`. Its reads fail at bad ranges,
/// and meet an end where its bytes end or before. A call whose number was handed to `fail_call` fails. Once its journal
/// is full, the next read is a loss.
#[derive(Drop)]
pub struct MemorySource {
    bytes: Vec<u8>,
    end: u64,
    bad: Vec<BadRange>,
    room: usize,
    entries: Vec<ReadEntry>,
    name: Vec<u8>,
    open: bool,
    schedule: FaultSchedule,
    opens: FaultCount,
    faults: FaultCount,
    losses: FaultCount,
    ghost inside: { end ≤ length bytes.items },
    ghost within: { All (λ e. e.given ≤ length bytes.items - e.pos) entries.items },
    ghost roomy: { room ≤ vec_capacity entries },
    ghost nameable: { name_limit ≤ vec_capacity name },
}

impl MemorySource {
    ghost use Rattle.memory_source.specs.MemoryState.{state_of};

    /// A source of these bytes with no input open. The memory for its journal and for the name of its input is taken
    /// here, so that no call takes any.
    pub fn new(
        alloc: Global,
        bytes: Vec<u8>,
        bad: Vec<BadRange>,
        room: usize,
    ) -> Result<MemorySource, NoMemory>
        requires { AreSeparate 0 bad.items }
        ensures state { IfOk result (λ s. state_of s ≡ record {
          tells = true;
          bytes = bytes.items;
          ends_at = length bytes.items;
          journal = [];
          name = [];
          is_open = false;
          opens = 0;
          faults = 0;
          losses = 0;
          is_scheduled = true;
          schedule = record { calls = no_schedule; room = room; bad = bad.items };
          below = [];
          journals_below = [];
        }) }
    {
        let entries = Vec::with_capacity(alloc, room)?;
        let name = Vec::with_capacity(alloc, NAME_LIMIT)?;
        let end = bytes.len() as u64;
        Ok(MemorySource {
            bytes,
            end,
            bad,
            room,
            entries,
            name,
            open: false,
            schedule: FaultSchedule::new(alloc),
            opens: FaultCount::new(),
            faults: FaultCount::new(),
            losses: FaultCount::new(),
        })
    }

    /// Lets reads meet the end at this position, which lies within the bytes; an open still tells the length of all.
    pub fn set_end(&mut self, at: u64)
        requires { at ≤ length (state_of self.old).bytes }
        ensures { state_of self.new ≡ record (state_of self.old) { ends_at = at } }
    {
        self.end = at;
    }

    /// Makes the call with this number fail, counted from 1 over all calls of both kinds.
    pub fn fail_call(&mut self, number: u64) -> Result<(), NoMemory>
        ensures added { OnOk result (state_of self.new ≡ record (state_of self.old) {
          schedule = record (state_of self.old).schedule
              { calls = with_failing number (state_of self.old).schedule.calls };
        }) }
        ensures kept { OnErr result (state_of self.new ≡ state_of self.old) }
    {
        Ok(self.schedule.fail_call(number)?)
    }

    /// The reads that were answered, in order.
    pub fn journal(&self) -> &[ReadEntry]
        ensures { result.now ≡ map entry_of (state_of self.now).journal }
    {
        &self.entries
    }
}

impl Source for MemorySource {
    ghost use Rattle.memory_source.specs.MemoryState.{state_of};

    ghost state = { state_of };

    fn open_input(&mut self, name: &str) -> Result<u64, SourceFault> {
        self.open = false;
        self.opens.raise();
        if self.schedule.count_call() || name == "missing" || name.len() > NAME_LIMIT {
            self.faults.raise();
            return Err(SourceFault);
        }
        self.name.clear();
        let Ok(()) = self.name.extend_from_slice(name.as_bytes()) else {
            unreachable!()
        };
        self.open = true;
        Ok(self.bytes.len() as u64)
    }

    fn read_at(&mut self, pos: u64, buf: &mut [u8]) -> Result<Got, SourceLost> {
        if self.schedule.count_call() || self.entries.len() >= self.room {
            self.losses.raise();
            return Err(SourceLost);
        }
        let asked = buf.len();
        let got = given(self.end, &self.bad, pos, asked);
        let entry = ReadEntry {
            pos,
            asked,
            given: got.count(),
            ended: got.is_end(),
        };
        let Ok(()) = self.entries.push(entry) else {
            unreachable!()
        };
        copy_part(&self.bytes, pos, got.count(), buf);
        end_read(&mut self.bad, pos, asked, got);
        Ok(got)
    }
}
