//! The reads that an input expects, and what it read ahead of them.
ghost use Rattle.std.specs.Prelude.{◌≡◌, ◌+◌, ◌<◌, ◌≤◌, ◌^◌, true, false, nat_le, length, vec_len};
ghost use Rattle.real_files.specs.Ahead.{GivesHeld, ReadsAhead, asked_ahead, holds, nothing_held};
ghost use Rattle.file_source.specs.Expected.{most_ahead};

use real_files::read_ahead::ReadAhead;
use std::io::Read;

/// The positions of an input that the next reads ask for, and what was read ahead of them.
#[derive(Drop)]
pub(crate) struct ExpectedReads {
    ahead: ReadAhead,
    from: u64,
    to: u64,
}

impl ExpectedReads {
    /// Nothing is expected. `room` is what is read ahead into.
    pub fn new(room: Vec<u8>) -> ExpectedReads
        ensures { result.ahead ≡ nothing_held (vec_len room) }
    {
        ExpectedReads {
            ahead: ReadAhead::new(room),
            from: 0,
            to: 0,
        }
    }

    /// Drops what was read ahead, and expects nothing.
    pub fn begin_anew(&mut self)
        ensures { self.new.ahead ≡ nothing_held self.old.ahead.room }
    {
        self.ahead.begin_anew();
        self.from = 0;
        self.to = 0;
    }

    /// The next reads ask for these positions, in order.
    pub fn expect(&mut self, from: u64, to: u64)
        ensures from { self.new.from ≡ from }
        ensures to { self.new.to ≡ to }
        ensures ahead { self.new.ahead ≡ self.old.ahead }
    {
        self.from = from;
        self.to = to;
    }

    /// Whether there is room for as many bytes. Without it no read of that many is served by `give`.
    pub fn has_room(&self, asked: usize) -> bool
        ensures { result ≡ nat_le asked self.now.ahead.room }
    {
        asked <= self.ahead.room()
    }

    /// How many bytes may be read ahead from a position on.
    fn most_at(&self, pos: u64) -> u64
        ensures { result ≡ most_ahead self.now.ahead self.now.from self.now.to pos }
    {
        if (self.ahead.is_whole() || self.ahead.asked_to() <= pos) && self.from <= pos {
            self.to.saturating_sub(pos)
        } else {
            0
        }
    }

    /// Fills a buffer with the bytes at a position: with those that were read ahead, or else by one read ahead of what
    /// is expected from there. It leaves the buffer as it was if no more than the buffer takes may be read ahead, or if
    /// that gives too few. After a read ahead that doesn't come whole nothing is read ahead up to where it asked. The
    /// reader is at the position.
    pub fn give<R: Read>(&mut self, reader: &mut R, pos: u64, buf: &mut [u8]) -> bool
        requires place { pos + length buf.old < 2 ^ 63 }
        ensures held { holds self.old.ahead pos (length buf.old) ≡ true
            → (result ≡ true) × (reader.new ≡ reader.old) × GivesHeld pos buf.new self.old.ahead self.new.ahead }
        ensures past { holds self.old.ahead pos (length buf.old) ≡ false
            → asked_ahead self.old.ahead (most_ahead self.old.ahead self.old.from self.old.to pos) ≤ length buf.old
            → (result ≡ false) × (reader.new ≡ reader.old) × (buf.new ≡ buf.old) × (self.new ≡ self.old) }
        ensures ahead { holds self.old.ahead pos (length buf.old) ≡ false
            → length buf.old < asked_ahead self.old.ahead (most_ahead self.old.ahead self.old.from self.old.to pos)
            → ReadsAhead pos (most_ahead self.old.ahead self.old.from self.old.to pos) result
            (R.remaining reader.old) (R.remaining reader.new) buf.old buf.new self.old.ahead self.new.ahead }
        ensures off { self.old.ahead.is_whole ≡ false → pos < self.old.ahead.asked_to
            → (reader.new ≡ reader.old) × (self.new.ahead.is_whole ≡ false) }
    {
        let most = self.most_at(pos);
        self.ahead.give(reader, pos, most, buf)
    }
}
