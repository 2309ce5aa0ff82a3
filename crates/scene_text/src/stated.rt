//! What a scene has said of its input.
ghost use Rattle.std.specs.Prelude.{◌≡◌, [], ◌∷◌, ◌++◌, IfOk, OnOk, OnErr};

use crate::refusal::Refusal;
use faulty_source::bad_range::BadRange;
use memory_source::memory::MemorySource;
use std::alloc::Global;
use std::marker::Model;

/// How many reads the journal holds if it isn't said.
const ROOM: usize = 1_000_000;

/// The most reads that a journal holds.
const ROOM_LIMIT: usize = 1 << 24;

/// Bad ranges, none of them empty, each past those before it.
#[derive(Drop)]
struct BadRanges {
    ranges: Vec<BadRange>,
    /// Where the last one ends, or 0.
    end: u64,
}

impl Model for BadRanges {
    ghost use Rattle.std.specs.Prelude.{List, ◌≡◌};
    ghost use Rattle.faulty_source.specs.declared.bad_range.BadRange.{BadRange};
    ghost use Rattle.faulty_source.specs.Memory.{AreSeparate};
    ghost use Rattle.scene_text.specs.BadRanges.{end_of};

    ghost Value = { List BadRange };

    ghost view = { λ b. b.ranges.items };

    ghost invariant = { λ b. AreSeparate 0 b.ranges.items × (end_of 0 b.ranges.items ≡ b.end) };
}

impl BadRanges {
    ghost use Rattle.faulty_source.specs.Memory.{AreSeparate};

    fn new(alloc: Global) -> BadRanges
        ensures { result ≡ [] }
    {
        BadRanges {
            ranges: Vec::new(alloc),
            end: 0,
        }
    }

    /// Adds a range, if it isn't empty and lies past the others.
    fn push(&mut self, range: BadRange) -> Result<(), Refusal>
        ensures ok { OnOk result (self.new ≡ self.old ++ range ∷ []) }
        ensures err { OnErr result (self.new ≡ self.old) }
    {
        if range.from < self.end || range.to <= range.from {
            return Err(Refusal::NotUnderstood);
        }
        self.ranges.push(range)?;
        self.end = range.to;
        Ok(())
    }

    /// A copy of the ranges.
    fn copy(&self, alloc: Global) -> Result<Vec<BadRange>, Refusal>
        ensures same { IfOk result (λ ranges. ranges.items ≡ self.now) }
        ensures apart { IfOk result (λ ranges. AreSeparate 0 ranges.items) }
    {
        Ok(Vec::from_slice(alloc, self.ranges.as_slice())?)
    }
}

/// The input's bytes, where reads meet an end before theirs, where they are bad, the journal's room, and the numbers of
/// the calls that fail.
#[derive(Drop)]
pub struct Stated {
    bytes: Vec<u8>,
    end: Option<u64>,
    bad: BadRanges,
    room: usize,
    failing: Vec<u64>,
}

impl Stated {
    /// An empty input.
    pub fn new(alloc: Global) -> Stated {
        Stated {
            bytes: Vec::new(alloc),
            end: None,
            bad: BadRanges::new(alloc),
            room: ROOM,
            failing: Vec::new(alloc),
        }
    }

    /// Sets the input's bytes. Reads meet the end where these end.
    pub fn set_bytes(&mut self, bytes: Vec<u8>) {
        self.bytes = bytes;
        self.end = None;
    }

    /// Lets reads meet the end at this position, unless it lies past the bytes.
    pub fn set_end(&mut self, at: u64) -> Result<(), Refusal> {
        if at > self.bytes.len() as u64 {
            return Err(Refusal::NotUnderstood);
        }
        self.end = Some(at);
        Ok(())
    }

    /// Adds a bad range, if it isn't empty and lies past the others.
    pub fn add_bad(&mut self, range: BadRange) -> Result<(), Refusal> {
        self.bad.push(range)
    }

    /// Sets how many reads the journal holds, unless these are too many.
    pub fn set_room(&mut self, room: usize) -> Result<(), Refusal> {
        if room > ROOM_LIMIT {
            return Err(Refusal::NotUnderstood);
        }
        self.room = room;
        Ok(())
    }

    /// Makes the source's calls of these numbers fail.
    pub fn fail_calls(&mut self, numbers: &[u64]) -> Result<(), Refusal> {
        self.failing.extend_from_slice(numbers)?;
        Ok(())
    }

    /// A new source of what is stated.
    pub fn make_source(&self, alloc: Global) -> Result<MemorySource, Refusal> {
        let bytes = Vec::from_slice(alloc, self.bytes.as_slice())?;
        let bad = self.bad.copy(alloc)?;
        let mut source = MemorySource::new(alloc, bytes, bad, self.room)?;
        if let Some(at) = self.end {
            source.set_end(at.min(self.bytes.len() as u64));
        }
        for number in &self.failing {
            source.fail_call(*number)?;
        }
        Ok(source)
    }
}
