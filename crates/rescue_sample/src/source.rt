//! A sample as an input.
ghost use Rattle.std.specs.Prelude.{◌≡◌, ℕ, ◌+◌, ◌<◌, ◌≤◌, ◌^◌, [], length, take, slice_range, All, count_by, IfOk};
ghost use Rattle.rescue_sample.specs.Sample.{IsSampleAnswer, bad_sectors, entry_failed};

use crate::draw::{answer, draw_sectors, fill};
use block_list::tiles::NoMemory;
use fault_count::FaultCount;
use faulty_source::journal::ReadEntry;
use faulty_source::source::{Got, Source, SourceFault, SourceLost};
use std::alloc::Global;

/// How many reads were answered, and how many of these failed.
#[derive(Clone, Copy, Debug, PartialEq, Eq)]
pub struct Answered {
    pub reads: u64,
    pub failed: u64,
}

/// A sample: its byte at x is x mod 251, and some of its sectors, which are drawn by its size, stay bad forever. An
/// open fails, and a read is a loss, only for lack of memory.
#[derive(Drop)]
pub struct SampleSource {
    kib: u64,
    sectors: Vec<u64>,
    entries: Vec<ReadEntry>,
    name: Vec<u8>,
    open: bool,
    opens: FaultCount,
    faults: FaultCount,
    losses: FaultCount,
    ghost small: { kib ≤ 65536 },
    ghost drawn: { sectors.items ≡ bad_sectors kib },
    ghost answered: { All (λ e. IsSampleAnswer kib e.pos e.asked e.given e.ended) entries.items },
}

/// Whether a read failed.
fn has_failed(entry: &ReadEntry) -> bool
    ensures { result ≡ entry_failed entry.now }
{
    entry.given != entry.asked && !entry.ended
}

/// How many reads failed.
fn count_failed(entries: &[ReadEntry]) -> u64
    ensures { result ≡ count_by entry_failed entries.now }
{
    let mut failed = 0;
    for entry in entries {
        if has_failed(entry) {
            failed += 1;
        }
    }
    failed
}

impl SampleSource {
    ghost use Rattle.rescue_sample.specs.Sample.{AreSampleReads, sample_bytes, sample_size};
    ghost use Rattle.rescue_sample.specs.SourceState.{state_of};

    /// A sample of `kib` KiB, with no input open. The memory for its journal is taken here: room for three reads of
    /// each sector, and one more.
    pub fn new(alloc: Global, kib: u64) -> Result<SampleSource, NoMemory>
        requires low { 0 < kib }
        requires high { kib ≤ 65536 }
        ensures bytes { IfOk result (λ s. (state_of s).bytes ≡ sample_bytes kib) }
        ensures journal { IfOk result (λ s. (state_of s).journal ≡ []) }
    {
        let sectors = draw_sectors(alloc, kib)?;
        let entries = Vec::with_capacity(alloc, kib as usize * 6 + 1)?;
        Ok(SampleSource {
            kib,
            sectors,
            entries,
            name: Vec::new(alloc),
            open: false,
            opens: FaultCount::new(),
            faults: FaultCount::new(),
            losses: FaultCount::new(),
        })
    }

    /// Gives `count` of the sample's bytes from a position on.
    fn give(&self, pos: u64, count: usize, buf: &mut [u8])
        requires fits { count ≤ length buf.old }
        requires place { pos + count < 2 ^ 63 }
        requires there { 0 < count → pos + count ≤ sample_size self.now.kib }
        ensures { take count buf.new ≡ slice_range (sample_bytes self.now.kib) pos (pos + count) }
    {
        fill(pos, count, buf);
    }

    /// How many reads were answered, and how many failed.
    pub fn answered(&self) -> Answered
        ensures { (kib : ℕ) → (state_of self.now).bytes ≡ sample_bytes kib
            → AreSampleReads kib (state_of self.now).journal result }
    {
        Answered {
            reads: self.entries.len() as u64,
            failed: count_failed(&self.entries),
        }
    }
}

impl Source for SampleSource {
    ghost use Rattle.rescue_sample.specs.SourceState.{state_of};

    ghost state = { state_of };

    fn open_input(&mut self, name: &str) -> Result<u64, SourceFault> {
        self.open = false;
        self.opens.raise();
        self.name.clear();
        if self.name.extend_from_slice(name.as_bytes()).is_err() {
            self.faults.raise();
            return Err(SourceFault);
        }
        self.open = true;
        Ok(self.kib * 1024)
    }

    fn read_at(&mut self, pos: u64, buf: &mut [u8]) -> Result<Got, SourceLost> {
        let asked = buf.len();
        let got = answer(self.kib, &self.sectors, pos, asked);
        let entry = ReadEntry {
            pos,
            asked,
            given: got.count(),
            ended: got.is_end(),
        };
        if self.entries.push(entry).is_err() {
            self.losses.raise();
            return Err(SourceLost);
        }
        self.give(pos, got.count(), buf);
        Ok(got)
    }
}
