//! Files as bytes and as text.
ghost use Rattle.std.specs.Prelude.{◌≤◌, length};
ghost use Rattle.std.specs.Iterator.{at_most};

use crate::refusal::Refusal;
use crate::values::ramp;
use std::io::Write;

/// The fewest bytes that are written as a ramp.
const RAMP: usize = 8;

/// The fewest equal bytes that are written with their number.
const EQUAL: usize = 4;

/// Bytes that follow each other in a file.
#[derive(Clone, Copy)]
enum Piece {
    Ramp(usize),
    Equal(u8, usize),
    Byte(u8),
}

/// What is left of a file, as pieces.
#[derive(Drop)]
struct Pieces<'a> {
    place: usize,
    rest: &'a [u8],
}

impl<'a> Iterator for Pieces<'a> {
    type Item = Piece;

    ghost remaining = { λ p. at_most (length p.rest.now) };

    fn next(&mut self) -> Option<Piece> {
        let first = *self.rest.first()?;
        let slope = count_ramp(self.rest, self.place);
        let equal = count_equal(self.rest, first);
        let (count, piece) = if slope >= RAMP && slope >= equal {
            (slope, Piece::Ramp(slope))
        } else if equal >= EQUAL {
            (equal, Piece::Equal(first, equal))
        } else {
            (1, Piece::Byte(first))
        };
        self.place = self.place.saturating_add(count);
        self.rest = &self.rest[count..];
        Some(piece)
    }
}

/// How many bytes from the first on are the ramp's from a place on.
fn count_ramp(bytes: &[u8], place: usize) -> usize
    ensures { result ≤ length bytes.now }
{
    for (i, byte) in bytes.iter().enumerate() {
        if *byte != ramp(place.saturating_add(i)) {
            return i;
        }
    }
    bytes.len()
}

/// How many bytes from the first on are equal to one.
fn count_equal(bytes: &[u8], value: u8) -> usize
    ensures { result ≤ length bytes.now }
{
    bytes
        .iter()
        .position(|byte| *byte != value)
        .unwrap_or(bytes.len())
}

/// Adds the bytes of a file.
pub fn append_shown(out: &mut Vec<u8>, file: Option<&[u8]>) -> Result<(), Refusal> {
    match file {
        None => out.extend_from_slice(b"absent")?,
        Some([]) => out.extend_from_slice(b"empty")?,
        Some(bytes) => append_pieces(out, bytes)?,
    }
    Ok(())
}

fn append_pieces(out: &mut Vec<u8>, bytes: &[u8]) -> Result<(), Refusal> {
    let pieces = Pieces {
        place: 0,
        rest: bytes,
    };
    let mut last = None;
    for piece in pieces {
        append_piece(out, last, piece)?;
        last = Some(piece);
    }
    Ok(())
}

/// Adds a piece after the last one. Bytes follow each other in one item.
fn append_piece(out: &mut Vec<u8>, last: Option<Piece>, piece: Piece) -> Result<(), Refusal> {
    match (last, piece) {
        (None, _) | (Some(Piece::Byte(_)), Piece::Byte(_)) => {}
        _ => out.push(b' ')?,
    }
    match piece {
        Piece::Ramp(count) => write!(out, "ramp*{count}")?,
        Piece::Equal(byte, count) => write!(out, "{byte:02x}*{count}")?,
        Piece::Byte(byte) => write!(out, "{byte:02x}")?,
    }
    Ok(())
}

/// Adds a line for each line of a text, after a word, and one for a rest without a newline, after another word.
pub fn append_lines(
    out: &mut Vec<u8>,
    text: &[u8],
    word: &[u8],
    rest: &[u8],
) -> Result<(), Refusal> {
    for line in text.split_inclusive(|byte| *byte == b'\n') {
        match line.strip_suffix(b"\n") {
            Some(whole) => append_line(out, word, whole)?,
            None => append_line(out, rest, line)?,
        }
    }
    Ok(())
}

/// Adds a line after a word. If the line is empty, nothing comes after the word.
fn append_line(out: &mut Vec<u8>, word: &[u8], line: &[u8]) -> Result<(), Refusal> {
    out.extend_from_slice(word)?;
    if !line.is_empty() {
        out.push(b' ')?;
        append_escaped(out, line)?;
    }
    out.push(b'\n')?;
    Ok(())
}

/// Adds bytes, escaped if they are no plain characters.
pub fn append_escaped(out: &mut Vec<u8>, bytes: &[u8]) -> Result<(), Refusal> {
    for byte in bytes {
        append_character(out, *byte)?;
    }
    Ok(())
}

fn append_character(out: &mut Vec<u8>, byte: u8) -> Result<(), Refusal> {
    match byte {
        b'\\' => out.extend_from_slice(b"\\\\")?,
        0x20..=0x7E => out.push(byte)?,
        _ => write!(out, "\\x{byte:02x}")?,
    }
    Ok(())
}
