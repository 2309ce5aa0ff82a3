//! The commands of a transcript.
use crate::fields::{Field, Fields};
use crate::kinds::read_kind;
use crate::refusal::Refusal;
use crate::values::{read_bytes, read_number, read_text};
use faulty_source::bad_range::BadRange;
use memory_site::memory::stop::Left;
use option_words::words::Words;
use std::alloc::Global;

/// An object whose calls may fail.
#[derive(Clone, Copy)]
pub enum Object {
    Source,
    Console,
    Feed,
}

/// A call of the site that fails, and how many steps it makes before.
#[derive(Clone, Copy)]
pub struct FailingCall {
    pub number: u64,
    pub steps: u64,
}

/// What is asked of files.
#[derive(Clone, Copy)]
pub enum View {
    /// Their bytes.
    Show,
    /// Their text.
    Print,
    /// What they say as mapfiles.
    Blocks,
}

/// A rescue that is stopped after each of the calls made, and the files to be shown.
#[derive(Drop)]
pub struct Stops {
    pub output: String,
    pub map: String,
    pub words: Words,
}

/// A line that asks for something.
#[derive(Drop)]
pub enum Command {
    /// Begins anew.
    Scene,
    /// The input's bytes.
    Source(Vec<u8>),
    /// Where reads meet the input's end.
    End(u64),
    /// One more bad range of the input.
    Bad(BadRange),
    /// How many reads the journal holds.
    Room(usize),
    /// A file.
    File {
        name: String,
        bytes: Vec<u8>,
        regular: bool,
    },
    /// A regular file, whose lines follow.
    Text(String),
    /// The readings of the clock of each later run, in milliseconds.
    Clock(Vec<u64>),
    /// The same by the number of reads so far, which each line then begins with.
    Paced(Vec<u64>),
    /// The numbers of calls that fail.
    Fail(Object, Vec<u64>),
    /// The calls of the site that fail.
    FailSite(Vec<FailingCall>),
    /// What the next run of ddrescuelog takes from its feed.
    Feed(Vec<u8>),
    /// A rescue.
    Run(Words),
    /// A run of ddrescuelog.
    Log(Words),
    /// A run of ddrescuepart.
    Part(Words),
    /// A run of ddrescueverify.
    Verify(Words),
    /// A run of ddrescueplan.
    Plan(Words),
    /// A run of ddrescueshow.
    Picture(Words),
    /// A stop came after this number of calls of the site.
    Stop {
        calls: usize,
        kind: Left,
    },
    Stops(Stops),
    /// Files as mapfiles, as each stop leaves them.
    Left(Vec<String>),
    /// Files to be looked at.
    View(View, Vec<String>),
}

/// Reads a line. A command begins it, without a space before.
pub fn read_command(alloc: Global, line: &[u8]) -> Result<Command, Refusal> {
    if line.starts_with(b" ") {
        return Err(Refusal::NotUnderstood);
    }
    let mut fields = Fields::new(alloc, line);
    let word = take_text(&mut fields)?;
    match word.as_str() {
        "scene" => read_scene(fields),
        "source" => Ok(Command::Source(read_bytes(fields)?)),
        "end" => read_end(fields),
        "bad" => read_bad(fields),
        "room" => read_room(fields),
        "file" => read_file(fields, true),
        "other" => read_file(fields, false),
        "text" => read_text_file(fields),
        "clock" => Ok(Command::Clock(take_numbers(fields)?)),
        "paced" => Ok(Command::Paced(take_numbers(fields)?)),
        "feed" => Ok(Command::Feed(read_bytes(fields)?)),
        "fail" => read_fail(fields),
        "run" => Ok(Command::Run(take_words(fields)?)),
        "log" => Ok(Command::Log(take_words(fields)?)),
        "part" => Ok(Command::Part(take_words(fields)?)),
        "verify" => Ok(Command::Verify(take_words(fields)?)),
        "plan" => Ok(Command::Plan(take_words(fields)?)),
        "picture" => Ok(Command::Picture(take_words(fields)?)),
        "stop" => read_stop(fields),
        "stops" => read_stops(fields),
        "left" => Ok(Command::Left(take_texts(fields)?)),
        "show" => read_view(View::Show, fields),
        "print" => read_view(View::Print, fields),
        "blocks" => read_view(View::Blocks, fields),
        _ => Err(Refusal::NotUnderstood),
    }
}

fn take_field(fields: &mut Fields<'_>) -> Result<Field, Refusal> {
    match fields.next() {
        Some(field) => field,
        None => Err(Refusal::NotUnderstood),
    }
}

fn take_text(fields: &mut Fields<'_>) -> Result<String, Refusal> {
    read_text(&take_field(fields)?)
}

fn take_number(fields: &mut Fields<'_>) -> Result<u64, Refusal> {
    read_number(&take_field(fields)?.bytes)
}

/// Nothing is left of the line.
fn take_end(mut fields: Fields<'_>) -> Result<(), Refusal> {
    match fields.next() {
        Some(_) => Err(Refusal::NotUnderstood),
        None => Ok(()),
    }
}

/// All fields that are left, as texts.
fn take_texts(fields: Fields<'_>) -> Result<Vec<String>, Refusal> {
    let mut texts = Vec::new(fields.allocator());
    for field in fields {
        texts.push(read_text(&field?)?)?;
    }
    Ok(texts)
}

/// All fields that are left, as numbers.
fn take_numbers(fields: Fields<'_>) -> Result<Vec<u64>, Refusal> {
    let mut numbers = Vec::new(fields.allocator());
    for field in fields {
        numbers.push(read_number(&field?.bytes)?)?;
    }
    Ok(numbers)
}

/// All fields that are left, as the words of a command line.
fn take_words(fields: Fields<'_>) -> Result<Words, Refusal> {
    let mut words = Words::new(fields.allocator());
    for field in fields {
        let word = read_text(&field?)?;
        words.push(word.as_str())?;
    }
    Ok(words)
}

fn read_scene(fields: Fields<'_>) -> Result<Command, Refusal> {
    take_texts(fields)?;
    Ok(Command::Scene)
}

fn read_end(mut fields: Fields<'_>) -> Result<Command, Refusal> {
    let at = take_number(&mut fields)?;
    take_end(fields)?;
    Ok(Command::End(at))
}

fn read_bad(mut fields: Fields<'_>) -> Result<Command, Refusal> {
    let from = take_number(&mut fields)?;
    let to = take_number(&mut fields)?;
    let attempts = match fields.next() {
        None => None,
        Some(field) => Some(read_attempts(&field?)?),
    };
    take_end(fields)?;
    Ok(Command::Bad(BadRange { from, to, attempts }))
}

fn read_attempts(field: &Field) -> Result<u32, Refusal> {
    u32::try_from(read_number(&field.bytes)?).map_err(|_| Refusal::NotUnderstood)
}

fn read_room(mut fields: Fields<'_>) -> Result<Command, Refusal> {
    let room = take_number(&mut fields)?;
    take_end(fields)?;
    Ok(Command::Room(room as usize))
}

fn read_file(mut fields: Fields<'_>, regular: bool) -> Result<Command, Refusal> {
    let name = take_text(&mut fields)?;
    let bytes = read_bytes(fields)?;
    Ok(Command::File {
        name,
        bytes,
        regular,
    })
}

fn read_text_file(mut fields: Fields<'_>) -> Result<Command, Refusal> {
    let name = take_text(&mut fields)?;
    take_end(fields)?;
    Ok(Command::Text(name))
}

/// Reads the number of a call of the site, and after a colon how many steps it makes before it fails.
fn read_failing(field: &Field) -> Result<FailingCall, Refusal> {
    let text = field.bytes.as_slice();
    match text.iter().position(|byte| *byte == b':') {
        None => Ok(FailingCall {
            number: read_number(text)?,
            steps: 0,
        }),
        Some(colon) => Ok(FailingCall {
            number: read_number(&text[..colon])?,
            steps: read_number(&text[colon + 1..])?,
        }),
    }
}

fn read_fail_site(fields: Fields<'_>) -> Result<Command, Refusal> {
    let mut failing = Vec::new(fields.allocator());
    for field in fields {
        failing.push(read_failing(&field?)?)?;
    }
    Ok(Command::FailSite(failing))
}

fn read_fail(mut fields: Fields<'_>) -> Result<Command, Refusal> {
    let object = match take_text(&mut fields)?.as_str() {
        "site" => return read_fail_site(fields),
        "source" => Object::Source,
        "console" => Object::Console,
        "feed" => Object::Feed,
        _ => return Err(Refusal::NotUnderstood),
    };
    Ok(Command::Fail(object, take_numbers(fields)?))
}

fn read_stop(mut fields: Fields<'_>) -> Result<Command, Refusal> {
    let calls = take_number(&mut fields)?;
    let kind = read_kind(take_text(&mut fields)?.as_str())?;
    take_end(fields)?;
    Ok(Command::Stop {
        calls: calls as usize,
        kind,
    })
}

fn read_stops(mut fields: Fields<'_>) -> Result<Command, Refusal> {
    Ok(Command::Stops(Stops {
        output: take_text(&mut fields)?,
        map: take_text(&mut fields)?,
        words: take_words(fields)?,
    }))
}

fn read_view(view: View, fields: Fields<'_>) -> Result<Command, Refusal> {
    Ok(Command::View(view, take_texts(fields)?))
}
