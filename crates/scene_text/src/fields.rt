//! The fields of a line.
ghost use Rattle.std.specs.Prelude.{◌≤◌, ◌<◌, length, IfOk};
ghost use Rattle.std.specs.Iterator.{at_most};

use crate::refusal::Refusal;
use crate::values::byte_of_digits;
use std::alloc::Global;

/// A field, without its quotes and with its escapes read.
#[derive(Drop)]
pub(crate) struct Field {
    pub(crate) bytes: Vec<u8>,
    pub(crate) is_quoted: bool,
}

/// What is left of a line: its fields, one after another. After a field that can't be read nothing is left.
#[derive(Drop)]
pub(crate) struct Fields<'a> {
    alloc: Global,
    rest: &'a [u8],
}

impl<'a> Fields<'a> {
    /// The fields of a line, from its first byte on.
    pub(crate) fn new(alloc: Global, line: &'a [u8]) -> Fields<'a> {
        Fields { alloc, rest: line }
    }

    /// What the memory for the fields is taken from.
    pub(crate) fn allocator(&self) -> Global {
        self.alloc
    }
}

impl<'a> Iterator for Fields<'a> {
    type Item = Result<Field, Refusal>;

    ghost remaining = { λ s. at_most (length s.rest.now) };

    fn next(&mut self) -> Option<Result<Field, Refusal>> {
        let line = without_spaces(self.rest);
        let (first, after) = line.split_first()?;
        let read = if *first == b'"' {
            read_quoted(self.alloc, after)
        } else {
            read_bare(self.alloc, *first, after)
        };
        match read {
            Ok((field, read)) => {
                self.rest = &after[read..];
                Some(Ok(field))
            }
            Err(refusal) => {
                self.rest = &[];
                Some(Err(refusal))
            }
        }
    }
}

/// The line from its first byte on that is no space.
fn without_spaces(line: &[u8]) -> &[u8]
    ensures { length result.now ≤ length line.now }
{
    let start = line
        .iter()
        .position(|byte| *byte != b' ')
        .unwrap_or(line.len());
    &line[start..]
}

/// Reads a field without quotes from its second byte on. Answers how many bytes were read.
fn read_bare(alloc: Global, first: u8, after: &[u8]) -> Result<(Field, usize), Refusal>
    ensures { IfOk result (λ read. read.1 ≤ length after.now) }
{
    let end = after
        .iter()
        .position(|byte| *byte == b' ')
        .unwrap_or(after.len());
    let mut bytes = Vec::new(alloc);
    bytes.push(first)?;
    bytes.extend_from_slice(&after[..end])?;
    let field = Field {
        bytes,
        is_quoted: false,
    };
    Ok((field, end))
}

/// Reads a field from after its first quote. Answers how many bytes were read.
fn read_quoted(alloc: Global, after: &[u8]) -> Result<(Field, usize), Refusal>
    ensures { IfOk result (λ read. read.1 ≤ length after.now) }
{
    let mut text = Quoted {
        bytes: Vec::new(alloc),
        place: NextByte::Text,
    };
    for (i, byte) in after.iter().enumerate() {
        if text.take(*byte)? {
            return close(text.bytes, after, i);
        }
    }
    Err(Refusal::NotUnderstood)
}

/// The field that ends at a quote. A space or the line's end follows.
fn close(bytes: Vec<u8>, after: &[u8], quote: usize) -> Result<(Field, usize), Refusal>
    requires { quote < length after.now }
    ensures { IfOk result (λ read. read.1 ≤ length after.now) }
{
    let end = quote + 1;
    if end < after.len() && after[end] != b' ' {
        return Err(Refusal::NotUnderstood);
    }
    let field = Field {
        bytes,
        is_quoted: true,
    };
    Ok((field, end))
}

/// What the next byte of a quoted field belongs to.
#[derive(Clone, Copy)]
enum NextByte {
    Text,
    /// A backslash comes before it.
    Escape,
    /// `\x` comes before it.
    FirstDigit,
    /// `\x` and this digit come before it.
    SecondDigit(u8),
}

/// A quoted field, as far as it was read.
#[derive(Drop)]
struct Quoted {
    bytes: Vec<u8>,
    place: NextByte,
}

impl Quoted {
    /// Takes the next byte. Answers whether it is the quote that ends the field.
    fn take(&mut self, byte: u8) -> Result<bool, Refusal> {
        match self.place {
            NextByte::Text if byte == b'"' => return Ok(true),
            NextByte::Text if byte == b'\\' => self.place = NextByte::Escape,
            NextByte::Text => self.bytes.push(byte)?,
            NextByte::Escape if byte == b'x' => self.place = NextByte::FirstDigit,
            NextByte::Escape => self.put(escaped(byte)?)?,
            NextByte::FirstDigit => self.place = NextByte::SecondDigit(byte),
            NextByte::SecondDigit(first) => self.put(byte_of_digits(first, byte)?)?,
        }
        Ok(false)
    }

    /// Adds the byte for which an escape stands.
    fn put(&mut self, byte: u8) -> Result<(), Refusal> {
        self.bytes.push(byte)?;
        self.place = NextByte::Text;
        Ok(())
    }
}

/// The byte for which a backslash and this letter stand.
fn escaped(letter: u8) -> Result<u8, Refusal> {
    match letter {
        b'n' => Ok(b'\n'),
        b't' => Ok(b'\t'),
        b'r' => Ok(b'\r'),
        b'\\' | b'"' => Ok(letter),
        _ => Err(Refusal::NotUnderstood),
    }
}
