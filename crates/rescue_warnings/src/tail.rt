//! What the last pieces of a mapfile say: where its last block ends, and its last finished one. A long mapfile isn't
//! read a second time for it.
ghost use Rattle.std.specs.Prelude.{◌≤◌, length, IfSome};

use crate::facts::{Finished, MapText};
use block_list::status::Status;
use block_list::tiles::Tiles;
use mapfile_reader::read::{ReadMap, TEXT_LIMIT, read_map};
use mapfile_text::read::{MapError, Mode};
use real_files::file_cursor::read_full;
use real_files::outcome::if_there;
use std::alloc::Global;
use std::fs::{self, File};
use std::io::{Seek, SeekFrom};

/// How many bytes are read at a time.
const PIECE: usize = 65536;

/// How many pieces are read at most, of which each comes before the last one.
const PIECES: usize = 16;

/// A status line, in place of that of a mapfile whose front isn't read.
const STATUS_LINE: &[u8] = b"0 ? 1\n";

/// What the lines of a piece say, if they are lines of a map.
#[derive(Drop)]
enum Said {
    Blocks(ReadMap),
    /// Comments and blank lines alone.
    Nothing,
    NoMap,
}

/// What a text says that has the front of a mapfile or comes after it.
fn said_by(alloc: Global, front: bool, lines: &[u8]) -> Said {
    let Ok(mut text) = Vec::from_slice(alloc, if front { b"" } else { STATUS_LINE }) else {
        return Said::NoMap;
    };
    if text.extend_from_slice(lines).is_err() {
        return Said::NoMap;
    }
    match read_map(alloc, &text, Mode::Tight) {
        Ok(map) if map.listed => Said::Blocks(map),
        Ok(_) | Err(MapError::NoStatusLine) => Said::Nothing,
        Err(_) => Said::NoMap,
    }
}

/// Where the first whole line of a piece begins.
fn first_line(front: bool, piece: &[u8]) -> Option<usize>
    ensures { IfSome result (λ n. n ≤ length piece.now) }
{
    if front {
        return Some(0);
    }
    let newline = piece.iter().position(|byte| *byte == b'\n')?;
    Some(newline + 1)
}

/// What was read of a mapfile so far, from its end on.
#[derive(Drop)]
struct Tail {
    /// Where the lines begin that were read, in bytes from the mapfile's start.
    from: u64,
    /// Where the first block begins that was read.
    begin: Option<u64>,
    /// Where the last block ends.
    end: Option<u64>,
}

/// What a further piece showed.
#[derive(Clone, Copy)]
enum Step {
    /// All that is asked for.
    Known(MapText),
    More,
}

/// What a map says whose last block ends there, if it has one.
fn text_of(end: Option<u64>, finished: Option<Finished>) -> MapText {
    match end {
        Some(end) => MapText::Blocks { end, finished },
        None => MapText::NoBlock,
    }
}

impl Tail {
    /// Puts the blocks of a piece before those that were read. None if they don't end where those begin.
    fn put(&mut self, map: &ReadMap) -> Option<()> {
        let end = map.tiles.end();
        if let Some(begin) = self.begin {
            if begin != end {
                return None;
            }
        } else {
            self.end = Some(end);
        }
        self.begin = Some(map.first);
        Some(())
    }

    /// What the blocks of a piece show.
    fn put_lines(&mut self, said: Said) -> Option<Step> {
        let map = match said {
            Said::NoMap => return None,
            Said::Nothing => return Some(Step::More),
            Said::Blocks(map) => map,
        };
        self.put(&map)?;
        match map.tiles.find_backward(map.tiles.end(), Status::Finished) {
            Some(range) => {
                let finished = Finished::UpTo(range.to);
                Some(Step::Known(text_of(self.end, Some(finished))))
            }
            None => Some(Step::More),
        }
    }

    /// Reads the piece before what was read. None if it can't be read, or is no map's.
    fn read_piece(&mut self, alloc: Global, file: &mut File, room: &mut [u8]) -> Option<Step> {
        let count = self.from.min(room.len() as u64) as usize;
        let start = self.from - count as u64;
        let piece = &mut room[..count];
        file.seek(SeekFrom::Start(start)).ok()?;
        let got = read_full(file, piece).ok()?;
        if got < count {
            return None;
        }
        let front = start == 0;
        let line = first_line(front, piece)?;
        match self.put_lines(said_by(alloc, front, &piece[line..]))? {
            Step::More if front => Some(Step::Known(text_of(self.end, Some(Finished::Nowhere)))),
            step => {
                self.from = start + line as u64;
                Some(step)
            }
        }
    }
}

/// What a mapfile of this many bytes says, if it is a map as far as it is read.
fn read_tail(alloc: Global, mut file: File, length: u64) -> Option<MapText> {
    let mut room = vec![in alloc; 0; PIECE].ok()?;
    let mut tail = Tail {
        from: length,
        begin: None,
        end: None,
    };
    for _ in 0..PIECES {
        if let Step::Known(text) = tail.read_piece(alloc, &mut file, &mut room)? {
            return Some(text);
        }
    }
    let end = tail.end?;
    Some(MapText::Blocks {
        end,
        finished: None,
    })
}

/// What the mapfile of a name says, if that is known. Of a long one it reads pieces from its end, until one of them has
/// a finished block.
pub fn look_at_map(rt: &HostRuntime, name: &str) -> Option<MapText> {
    let Some(found) = if_there(fs::metadata(rt, name)).ok()? else {
        return Some(MapText::NoFile);
    };
    if !found.is_file() || found.len() > TEXT_LIMIT as u64 {
        return None;
    }
    let file = File::open(rt, name).ok()?;
    read_tail(rt.alloc(), file, found.len())
}
