//! Bytes of a file that are read before they are asked for, so that many small reads are one call of the system.
ghost use Rattle.std.specs.Prelude.{◌≡◌, ◌+◌, ◌<◌, ◌≤◌, ◌^◌, min, true, false, nat_eq, if◌then◌else◌, length, take, vec_len};
ghost use Rattle.std.specs.Io.KnownBytes.{Consumes};
ghost use Rattle.real_files.specs.Ahead.{asked_ahead, held_after, held_at, holds, nothing_held};
ghost use Rattle.real_files.specs.Ahead.{GivesHeld, ReadsAhead};

use std::io::Read;
use std::marker::Model;

/// What was read ahead of a file and wasn't given yet, in room that was handed in. Each byte is given once at most.
#[derive(Drop)]
pub struct ReadAhead {
    room: Vec<u8>,
    /// The position of the first byte that is held.
    pos: u64,
    /// Where the held bytes begin and end in the room.
    begin: usize,
    end: usize,
    is_whole: bool,
    /// The position up to which the last read ahead asked.
    asked_to: u64,
}

impl Model for ReadAhead {
    ghost use Rattle.std.specs.Prelude.{◌≤◌, length, slice_range};
    ghost use Rattle.real_files.specs.Ahead.{Ahead};

    ghost Value = { Ahead };

    ghost view = { λ a. record {
      pos = a.pos;
      bytes = slice_range a.room.items a.begin a.end;
      room = length a.room.items;
      is_whole = a.is_whole;
      asked_to = a.asked_to;
    } };

    ghost invariant = { λ a. (a.begin ≤ a.end) × (a.end ≤ length a.room.items) };
}

impl ReadAhead {
    /// Nothing is held. `room` is what is read ahead into. Without any nothing is read ahead.
    pub fn new(room: Vec<u8>) -> ReadAhead
        ensures { result ≡ nothing_held (vec_len room) }
    {
        ReadAhead {
            room,
            pos: 0,
            begin: 0,
            end: 0,
            is_whole: true,
            asked_to: 0,
        }
    }

    /// Drops what is held, and begins anew.
    pub fn begin_anew(&mut self)
        ensures { self.new ≡ nothing_held self.old.room }
    {
        self.pos = 0;
        self.begin = 0;
        self.end = 0;
        self.is_whole = true;
        self.asked_to = 0;
    }

    /// How many bytes there is room for.
    pub fn room(&self) -> usize
        ensures { result ≡ self.now.room }
    {
        self.room.len()
    }

    /// Whether the last read ahead gave all that it asked for.
    pub fn is_whole(&self) -> bool
        ensures { result ≡ self.now.is_whole }
    {
        self.is_whole
    }

    /// The position up to which the last read ahead asked.
    pub fn asked_to(&self) -> u64
        ensures { result ≡ self.now.asked_to }
    {
        self.asked_to
    }

    /// Fills a buffer with the bytes at a position: with those that are held, or else by one read ahead from there, of
    /// up to `most` bytes. The buffer stays as it was if such a read gives too few, and if it would ask for no more
    /// than the buffer takes. The reader is at the position.
    pub fn give<R: Read>(&mut self, reader: &mut R, pos: u64, most: u64, buf: &mut [u8]) -> bool
        requires place { pos + length buf.old < 2 ^ 63 }
        ensures held { holds self.old pos (length buf.old) ≡ true
            → (result ≡ true) × (reader.new ≡ reader.old) × GivesHeld pos buf.new self.old self.new }
        ensures past { holds self.old pos (length buf.old) ≡ false → asked_ahead self.old most ≤ length buf.old
            → (result ≡ false) × (reader.new ≡ reader.old) × (buf.new ≡ buf.old) × (self.new ≡ self.old) }
        ensures ahead { holds self.old pos (length buf.old) ≡ false → length buf.old < asked_ahead self.old most
            → ReadsAhead pos most result (R.remaining reader.old) (R.remaining reader.new) buf.old buf.new
            self.old self.new }
    {
        if self.give_held(pos, buf) {
            return true;
        }
        let asked = most.min(self.room.len() as u64) as usize;
        if asked <= buf.len() {
            return false;
        }
        self.read(reader, pos, asked);
        let given = self.give_held(pos, buf);
        if !given {
            self.end = self.begin;
        }
        given
    }

    /// Fills a buffer if all of it is held.
    fn give_held(&mut self, pos: u64, buf: &mut [u8]) -> bool
        requires place { pos + length buf.old < 2 ^ 63 }
        ensures held { result ≡ holds self.old pos (length buf.old) }
        ensures given { result ≡ true → GivesHeld pos buf.new self.old self.new }
        ensures none { result ≡ false → (buf.new ≡ buf.old) × (self.new ≡ self.old) }
    {
        let count = self.end - self.begin;
        if pos < self.pos || (count as u64) < pos - self.pos {
            return false;
        }
        let skipped = (pos - self.pos) as usize;
        if count - skipped < buf.len() {
            return false;
        }
        let from = self.begin + skipped;
        let to = from + buf.len();
        buf.copy_from_slice(&self.room[from..to]);
        self.begin = to;
        self.pos = pos + buf.len() as u64;
        true
    }

    /// Holds what one read of `asked` bytes from a position on gives.
    fn read<R: Read>(&mut self, reader: &mut R, pos: u64, asked: usize)
        requires room { asked ≤ self.old.room }
        requires place { pos < 2 ^ 63 }
        ensures place { self.new.pos ≡ pos }
        ensures came { Consumes (R.remaining reader.old) (R.remaining reader.new) self.new.bytes }
        ensures few { length self.new.bytes ≤ asked }
        ensures whole { self.new.is_whole ≡ nat_eq (length self.new.bytes) asked }
        ensures up_to { self.new.asked_to ≡ pos + asked }
        ensures room { self.new.room ≡ self.old.room }
    {
        let came = read_front(reader, &mut self.room, asked);
        self.pos = pos;
        self.begin = 0;
        self.end = came;
        self.is_whole = came == asked;
        self.asked_to = pos + asked as u64;
    }
}

/// How many bytes one read of `asked` bytes gives into the room's front: none if it fails.
fn read_front<R: Read>(reader: &mut R, room: &mut [u8], asked: usize) -> usize
    requires { asked ≤ length room.old }
    ensures count { result ≤ asked }
    ensures came { Consumes (R.remaining reader.old) (R.remaining reader.new) (take result room.new) }
{
    match reader.read(&mut room[..asked]) {
        Ok(count) => count,
        Err(_) => 0,
    }
}
