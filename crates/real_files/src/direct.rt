//! Reads past the kernel's cache. No call here opens a file so: whoever started the program can set the flag of a file
//! that it opened.
ghost use Rattle.std.specs.Prelude.{◌≡◌, ◌↔◌, ◌+◌, ◌<◌, ◌≤◌, ◌^◌, ◌%◌, true, length, IfOk, IfErr, IsErrAnd};
ghost use Rattle.std.specs.IoError.{error_kind};
ghost use Rattle.std.specs.Io.{ReadsAtMost};
ghost use Rattle.std.specs.Io.KnownBytes.{Keeps};
ghost use Rattle.real_files.specs.Direct.{GivesPast};

use crate::file_cursor::FileCursor;
use std::fs::File;
use std::io::{self, ErrorKind, Read};
use std::os::unix::fs::FileExt;

/// Whether a read was refused before anything was asked of the device, as one into memory that isn't aligned.
fn is_refused(outcome: &io::Result<usize>) -> bool
    ensures { (result ≡ true) ↔ IsErrAnd outcome.now (λ e. error_kind e ≡ ErrorKind.InvalidInput) }
{
    matches!(outcome, Err(error) if error.kind() == ErrorKind::InvalidInput)
}

/// Reads into a part of a room, and copies what follows the first `skip` bytes to the buffer's front. What gives no
/// more than these is the end.
fn read_past<R: Read>(
    reader: &mut R,
    part: &mut [u8],
    skip: usize,
    buf: &mut [u8],
) -> io::Result<usize>
    requires { skip ≤ length part.old }
    ensures bound { ReadsAtMost result buf.new }
    ensures gives { IfOk result (λ n. GivesPast skip (R.remaining reader.old) (R.remaining reader.new) n buf.new) }
    ensures keeps { IfErr result (λ _. Keeps (R.remaining reader.old) (R.remaining reader.new)) }
{
    let came = reader.read(part)?;
    let count = came.saturating_sub(skip).min(buf.len());
    buf[..count].copy_from_slice(&part[skip..skip + count]);
    Ok(count)
}

/// The least number of bytes in whole sectors that `wanted` bytes lie in, or as many as are free.
fn whole_sectors(free: usize, wanted: usize, sector: usize) -> usize
    requires some { 0 < sector }
    requires few { wanted + sector < 2 ^ 64 }
    ensures room { result ≤ free }
    ensures whole { result % sector ≡ 0 }
{
    let most = free - free % sector;
    let rest = wanted % sector;
    let whole = if rest == 0 {
        wanted
    } else {
        wanted - rest + sector
    };
    if whole < most { whole } else { most }
}

/// An address at a multiple of as many bytes suits every device.
const ALIGNED: usize = 4096;

/// An allocation lies at a multiple of as many bytes.
const STEP: usize = 16;

/// Room that is read into in place of a buffer that lies anywhere, from a place on that the kernel takes. The kernel
/// may want an aligned address, and no call tells where the room lies: so places are tried.
#[derive(Drop)]
pub struct AlignedRoom {
    room: Vec<u8>,
    place: usize,
    /// A read of at most this many bytes is made into that place alone: one as large gave bytes there, or each place was
    /// refused. The kernel may take a small read into a place where it refuses a larger one.
    settled: usize,
    /// Whether each place was refused before any gave bytes.
    is_shut: bool,
}

impl AlignedRoom {
    /// A room whose place is to be found. A large allocation lies one step past a page, so the place that is most
    /// likely aligned is tried first.
    pub fn new(room: Vec<u8>) -> AlignedRoom {
        AlignedRoom {
            room,
            place: ALIGNED - STEP,
            settled: 0,
            is_shut: false,
        }
    }

    /// Reads whole sectors into the room, from its place on, and gives what follows the first `skip` bytes.
    fn read_here<R: Read>(
        &mut self,
        reader: &mut R,
        sector: usize,
        skip: usize,
        buf: &mut [u8],
    ) -> io::Result<usize>
        requires some { 0 < sector }
        requires few { skip + length buf.old + sector < 2 ^ 64 }
        ensures bound { ReadsAtMost result buf.new }
        ensures gives { IfOk result (λ n. GivesPast skip (R.remaining reader.old) (R.remaining reader.new) n buf.new) }
        ensures keeps { IfErr result (λ _. Keeps (R.remaining reader.old) (R.remaining reader.new)) }
    {
        let free = self.room.len().saturating_sub(self.place);
        let asked = whole_sectors(free, skip + buf.len(), sector);
        if asked <= skip {
            return Err(ErrorKind::InvalidInput.into());
        }
        let part = &mut self.room[self.place..self.place + asked];
        let outcome = read_past(reader, part, skip, buf);
        if matches!(outcome, Ok(count) if count > 0) {
            self.settled = self.settled.max(asked);
        }
        outcome
    }

    /// Reads whole sectors through the room, and gives what follows the first `skip` bytes. Until a read as large gave
    /// bytes, one that is refused is tried at each other place. What is refused there too is an error of the kind
    /// `InvalidInput`, as is all that follows if no read gave bytes before.
    pub fn read<R: Read>(
        &mut self,
        reader: &mut R,
        sector: usize,
        skip: usize,
        buf: &mut [u8],
    ) -> io::Result<usize>
        requires some { 0 < sector }
        requires few { skip + length buf.old + sector < 2 ^ 64 }
        ensures bound { ReadsAtMost result buf.new }
        ensures gives { IfOk result (λ n. GivesPast skip (R.remaining reader.old) (R.remaining reader.new) n buf.new) }
        ensures keeps { IfErr result (λ _. Keeps (R.remaining reader.old) (R.remaining reader.new)) }
    {
        let wanted = skip + buf.len();
        if !self.is_shut {
            for _ in 0..ALIGNED / STEP {
                let outcome = self.read_here(reader, sector, skip, buf);
                if wanted <= self.settled || !is_refused(&outcome) {
                    return outcome;
                }
                self.place = self.place.wrapping_add(STEP) % ALIGNED;
            }
            self.is_shut = self.settled == 0;
            self.settled = self.settled.max(wanted);
        }
        Err(ErrorKind::InvalidInput.into())
    }
}

/// A file that is open past the kernel's cache, from a place on that is set. Each read is one call of the system, or two
/// if the kernel refuses it.
#[derive(Drop)]
pub struct DirectFile {
    file: File,
    /// The same file, open through the kernel's cache, for what the kernel refuses.
    cached: File,
    room: AlignedRoom,
    /// The size of the device's own sectors in bytes.
    sector: u16,
    pos: u64,
    /// How many reads the kernel refused.
    refused: u64,
}

impl DirectFile {
    /// A file that is open past the kernel's cache, and the same file open through it. It is read by sectors of this
    /// size in bytes, through this room.
    pub fn new(file: File, cached: File, room: Vec<u8>, sector: u16) -> DirectFile {
        DirectFile {
            file,
            cached,
            room: AlignedRoom::new(room),
            sector,
            pos: 0,
            refused: 0,
        }
    }

    /// The next read is from a position on, in bytes.
    pub fn go_to(&mut self, pos: u64) {
        self.pos = pos;
    }

    /// How many reads the kernel refused, so that they were made through its cache.
    pub fn refused(&self) -> u64 {
        self.refused
    }

    fn read_once(&mut self, buf: &mut [u8]) -> io::Result<usize>
        ensures { ReadsAtMost result buf.new }
    {
        let sector = self.sector.max(1) as usize;
        let skip = self.pos % sector as u64;
        let mut cursor = FileCursor::new(&self.file, self.pos - skip);
        let outcome = self.room.read(&mut cursor, sector, skip as usize, buf);
        if !is_refused(&outcome) {
            return outcome;
        }
        self.refused = self.refused.saturating_add(1);
        self.cached.read_at(buf, self.pos)
    }
}

impl Read for DirectFile {
    fn read(&mut self, buf: &mut [u8]) -> io::Result<usize> {
        let count = self.read_once(buf)?;
        self.pos = self.pos.saturating_add(count as u64);
        Ok(count)
    }
}
