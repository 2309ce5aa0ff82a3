//! Lines about a mapfile that was read, for which they look at it once more.
ghost use Rattle.std.specs.Prelude.{◌≤◌, IfSome, length};
ghost use Rattle.program_advice.specs.Lines.{IsOneLine};

use crate::cause::{Cause, Fact, Hint, Named};
use crate::line::{Line, line_of};
use arrayvec::ArrayVec;
use mapfile_text::read::MapError;
use std::fs::{self, File};
use std::io::Read;

/// The front of a line: one byte more than is shown, so that the cut is seen.
type Front = ArrayVec<u8, 81>;

/// How many bytes are read at a time.
const PIECE: usize = 65536;

/// How many pieces are read at most.
const PIECES: usize = 4097;

/// A search for a line of a text.
#[derive(Drop)]
struct Search {
    /// How many lines end before it from here on.
    before: usize,
    front: Front,
    done: bool,
}

/// A byte of a line as it is shown: what is neither a blank nor printable ASCII becomes a question mark.
fn shown(byte: u8) -> u8 {
    if byte == b'\t' {
        b' '
    } else if byte < 0x20 || byte > 0x7E {
        b'?'
    } else {
        byte
    }
}

impl Search {
    /// Takes the next byte of the text.
    fn take(&mut self, byte: u8) {
        if self.before > 0 {
            if byte == b'\n' {
                self.before -= 1;
            }
        } else if byte == b'\n' {
            self.done = true;
        } else if byte != b'\r' {
            self.done = self.front.try_push(shown(byte)).is_err();
        }
    }

    /// Takes bytes of the text, up to the line's end.
    fn take_all(&mut self, piece: &[u8]) {
        for byte in piece {
            if self.done {
                return;
            }
            self.take(*byte);
        }
    }
}

/// The line to which an error of a mapfile points, counted from 1.
fn line_number(error: MapError) -> Option<usize> {
    match error {
        MapError::BadStatusLine { line }
        | MapError::BadBlockLine { line }
        | MapError::Gap { line }
        | MapError::Overlap { line }
        | MapError::TooLarge { line } => Some(line),
        MapError::NoStatusLine | MapError::TooLong | MapError::NoMemory => None,
    }
}

/// The front of a regular file's line, counted from 1, if it can be read.
fn read_front(rt: &HostRuntime, name: &str, line: usize) -> Option<Front> {
    if !fs::metadata(rt, name).ok()?.is_file() {
        return None;
    }
    let mut file = File::open(rt, name).ok()?;
    let mut room = vec![in rt.alloc(); 0; PIECE].ok()?;
    let mut search = Search {
        before: line.checked_sub(1)?,
        front: Front::new(),
        done: false,
    };
    for _ in 0..PIECES {
        let count = file.read(&mut room).ok()?;
        if count == 0 || search.done {
            return Some(search.front);
        }
        search.take_all(room.get(..count)?);
    }
    None
}

/// The line that follows the message on a file whose text is no map. It shows the line of that text to which the error
/// points, if that can be read again.
pub fn line_on_map(rt: &HostRuntime, program: &str, file: Named<'_>, error: MapError) -> Line
    requires { length program.now ≤ 18 }
    ensures { IsOneLine result.items }
{
    let front = match line_number(error) {
        Some(line) => read_front(rt, file.name, line),
        None => None,
    };
    match &front {
        Some(line) => line_of(program, Cause::BadLine { file, line }),
        None => line_of(
            program,
            Cause::File {
                file,
                fact: Fact::NoMap,
            },
        ),
    }
}

/// The line that follows the message on lack of memory. It says how large the mapfile is, if that can be found.
pub fn line_on_memory(rt: &HostRuntime, program: &str, file: Named<'_>) -> Line
    requires { length program.now ≤ 18 }
    ensures { IsOneLine result.items }
{
    match fs::metadata(rt, file.name) {
        Ok(found) => line_of(
            program,
            Cause::LargeMap {
                file,
                bytes: found.len(),
            },
        ),
        Err(_) => line_of(program, Cause::Hint(Hint::NoMemory)),
    }
}
