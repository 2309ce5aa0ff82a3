//! The line that names a cause.
ghost use Rattle.std.specs.Prelude.{◌≡◌, ◌+◌, ◌≤◌, ◌++◌, [], ◌∷◌, length, map, codes};
ghost use Rattle.std.specs.Fmt.{decimal};
ghost use Rattle.mapfile_text.specs.Printed.{shown_byte};
ghost use Rattle.arrayvec.specs.ArrayVec.{array_vec_len};
ghost use Rattle.program_advice.specs.Lines.{IsOneLine, bad_line_text, cached_text, cause_text, cut, device_text, large_map_text, line_text, named_text, quoted, resuming_text, room_text, unsaved_text, use_text};

use crate::cause::{Cause, LimitOption, Named, UsedBy};
use crate::texts::{
    doing_text, fact_text, hint_text, left_text, option_text, role_text, stream_text,
};
use arrayvec::ArrayVec;
use itoa::Buffer;
use mapfile_text::heading::shown_byte;

/// A line on standard error.
pub type Line = ArrayVec<u8, 512>;

/// Adds a text for which there is room.
pub fn add(line: &mut Line, text: &str)
    requires { array_vec_len line.old + length text.now ≤ 511 }
    ensures text { line.new.items ≡ line.old.items ++ text.now }
    ensures len { array_vec_len line.new ≡ array_vec_len line.old + length text.now }
{
    let _fits = line.try_extend_from_slice(text.as_bytes());
}

/// Adds a text, or its first `most` bytes and two dots.
fn add_cut(line: &mut Line, text: &[u8], most: usize)
    requires { array_vec_len line.old + most ≤ 509 }
    ensures text { line.new.items ≡ line.old.items ++ cut most text.now }
    ensures len { array_vec_len line.new ≤ array_vec_len line.old + most + 2 }
{
    if text.len() <= most {
        let _fits = line.try_extend_from_slice(text);
        return;
    }
    let _fits = line.try_extend_from_slice(&text[..most]);
    add(line, "..");
}

/// Adds a name of the command line in quotes.
pub fn add_quoted(line: &mut Line, name: &str)
    requires { array_vec_len line.old ≤ 350 }
    ensures text { line.new.items ≡ line.old.items ++ quoted name.now }
    ensures len { array_vec_len line.new ≤ array_vec_len line.old + 154 }
{
    add(line, "'");
    add_cut(line, name.as_bytes(), 150);
    add(line, "'");
}

/// Adds a file by what it is and its name.
fn add_named(line: &mut Line, file: Named<'_>)
    requires { array_vec_len line.old ≤ 330 }
    ensures text { line.new.items ≡ line.old.items ++ named_text file.entry }
    ensures len { array_vec_len line.new ≤ array_vec_len line.old + 174 }
{
    add(line, role_text(file.role));
    add(line, " ");
    add_quoted(line, file.name);
}

/// Adds the name of a device in quotes.
fn add_device(line: &mut Line, name: &str)
    requires { array_vec_len line.old ≤ 440 }
    ensures text { line.new.items ≡ line.old.items ++ device_text name.now }
    ensures len { array_vec_len line.new ≤ array_vec_len line.old + 64 }
{
    add(line, "'");
    add_cut(line, name.as_bytes(), 60);
    add(line, "'");
}

/// Adds what uses a device.
fn add_use(line: &mut Line, device: &str, by: UsedBy<'_>)
    requires { array_vec_len line.old ≤ 220 }
    ensures text { line.new.items ≡ line.old.items ++ use_text device.now by.entry }
    ensures len { array_vec_len line.new ≤ array_vec_len line.old + 240 }
{
    match by {
        UsedBy::Mount(folder) => {
            add_device(line, device);
            add(line, " is mounted at ");
            add_quoted(line, folder);
        }
        UsedBy::Swap => {
            add_device(line, device);
            add(line, " is swap space");
        }
        UsedBy::Device(name) => {
            add_device(line, name);
            add(line, " is made of ");
            add_device(line, device);
        }
    }
}

/// Adds the advice after a limit that this option set.
fn add_resuming(line: &mut Line, option: LimitOption, resumes: bool)
    requires { array_vec_len line.old ≤ 400 }
    ensures text { line.new.items ≡ line.old.items ++ resuming_text option resumes }
    ensures len { array_vec_len line.new ≤ array_vec_len line.old + 60 }
{
    if !resumes {
        return;
    }
    match option {
        LimitOption::ReadErrors | LimitOption::BadAreas => {
            add(
                line,
                "; the same command (without -A and -M) resumes the rescue",
            );
        }
        LimitOption::Timeout => add(
            line,
            "; let the disk rest, then resume past this place (-i)",
        ),
    }
}

/// Adds the advice after a file system was full.
fn add_room(line: &mut Line, resumes: bool)
    requires { array_vec_len line.old ≤ 400 }
    ensures text { line.new.items ≡ line.old.items ++ room_text resumes }
    ensures len { array_vec_len line.new ≤ array_vec_len line.old + 60 }
{
    if resumes {
        add(
            line,
            ", which continues from the last saved map, if there is one",
        );
    }
}

/// Adds the advice on a mapfile that couldn't be saved.
fn add_unsaved(line: &mut Line, name: &str, reason: &str)
    requires { array_vec_len line.old ≤ 20 }
    ensures text { line.new.items ≡ line.old.items ++ unsaved_text name.now reason.now }
    ensures len { array_vec_len line.new ≤ array_vec_len line.old + 240 }
{
    add(line, "cannot save ");
    add_quoted(line, name);
    add(line, ": ");
    add_cut(line, reason.as_bytes(), 60);
}

/// Adds the advice on a line of a mapfile, of which it shows up to 80 bytes.
fn add_bad_line(line: &mut Line, file: Named<'_>, text: &[u8])
    requires { array_vec_len line.old ≤ 20 }
    ensures text { line.new.items ≡ line.old.items ++ bad_line_text file.entry text.now }
    ensures len { array_vec_len line.new ≤ array_vec_len line.old + 350 }
{
    add_named(line, file);
    add(line, " isn't a mapfile, or it was damaged: that line is '");
    add_cut(line, text, 80);
    add(line, "'");
}

/// Adds the advice on lack of memory for a map.
fn add_large_map(line: &mut Line, file: Named<'_>, bytes: u64)
    requires { array_vec_len line.old ≤ 20 }
    ensures text { line.new.items ≡ line.old.items ++ large_map_text file.entry bytes }
    ensures len { array_vec_len line.new ≤ array_vec_len line.old + 350 }
{
    add(line, "memory is short, and ");
    add_named(line, file);
    add(line, " has ");
    add(line, Buffer::new().format(bytes));
    add(line, " B: end other programs and give the same command");
}

/// Adds the advice on reads past the kernel's cache that weren't possible.
fn add_cached(line: &mut Line, reads: u64)
    requires { array_vec_len line.old ≤ 20 }
    ensures text { line.new.items ≡ line.old.items ++ cached_text reads }
    ensures len { array_vec_len line.new ≤ array_vec_len line.old + 100 }
{
    if reads == 1 {
        add(
            line,
            "1 read wasn't possible past the kernel's cache, and was made through it",
        );
        return;
    }
    add(line, Buffer::new().format(reads));
    add(
        line,
        " reads weren't possible past the kernel's cache, and were made through it",
    );
}

/// Adds the advice on a cause.
fn add_cause(line: &mut Line, cause: Cause<'_>)
    requires { array_vec_len line.old ≤ 20 }
    ensures text { line.new.items ≡ line.old.items ++ cause_text cause.entry }
    ensures len { array_vec_len line.new ≤ 511 }
{
    match cause {
        Cause::Refused {
            doing,
            file,
            reason,
        } => {
            add(line, doing_text(doing));
            add_named(line, file);
            add(line, ": ");
            add_cut(line, reason.as_bytes(), 60);
        }
        Cause::Unsaved { name, reason } => add_unsaved(line, name, reason),
        Cause::Full { file, resumes } => {
            add(line, "no space left for ");
            add_named(line, file);
            add(line, ": make room and give the same command");
            add_room(line, resumes);
        }
        Cause::File { file, fact } => {
            add_named(line, file);
            add(line, fact_text(fact));
        }
        Cause::DeviceInUse { file, device, by } => {
            add_named(line, file);
            add(line, " is in use: ");
            add_use(line, device, by);
        }
        Cause::BadLine { file, line: text } => add_bad_line(line, file, text),
        Cause::LargeMap { file, bytes } => add_large_map(line, file, bytes),
        Cause::OneName {
            first,
            second,
            name,
        } => {
            add(line, role_text(first));
            add(line, " and ");
            add(line, role_text(second));
            add(line, " are both ");
            add_quoted(line, name);
        }
        Cause::Limit { option, resumes } => {
            add(line, option_text(option));
            add_resuming(line, option, resumes);
        }
        Cause::Stream { stream, reason } => {
            add(line, stream_text(stream));
            add_cut(line, reason.as_bytes(), 60);
        }
        Cause::Argument { word, wanted } => {
            add_quoted(line, word);
            add(line, " isn't ");
            add_cut(line, wanted.as_bytes(), 150);
        }
        Cause::Usage { usage } => {
            add(line, "usage: ");
            add_cut(line, usage.as_bytes(), 150);
        }
        Cause::Left {
            bytes,
            skips,
            loses_neighbors,
        } => {
            add(line, Buffer::new().format(bytes));
            add(line, left_text(skips, loses_neighbors));
        }
        Cause::Cached { reads } => add_cached(line, reads),
        Cause::Hint(hint) => add(line, hint_text(hint)),
    }
}

/// Adds bytes as they are printed.
fn add_shown(line: &mut Line, bytes: &[u8])
    requires { array_vec_len line.old + length bytes.now ≤ 511 }
    ensures text { line.new.items ≡ line.old.items ++ map shown_byte bytes.now }
    ensures len { array_vec_len line.new ≡ array_vec_len line.old + length bytes.now }
{
    for byte in bytes {
        line.push(shown_byte(*byte));
    }
}

/// The line of a text: each control character becomes a question mark.
pub fn finished(text: &[u8]) -> Line
    requires { length text.now ≤ 511 }
    ensures text { result.items ≡ map shown_byte text.now ++ 10 ∷ [] }
    ensures line { IsOneLine result.items }
{
    let mut line = Line::new();
    add_shown(&mut line, text);
    line.push(b'\n');
    line
}

/// The line of a cause, which a program of this name puts after its message. No line has more than 512 bytes, and none
/// has a control character before its newline.
pub fn line_of(program: &str, cause: Cause<'_>) -> Line
    requires { length program.now ≤ 18 }
    ensures text { result.items ≡ line_text program.now cause.entry }
    ensures line { IsOneLine result.items }
{
    let mut text = Line::new();
    add(&mut text, program);
    add(&mut text, ": ");
    add_cause(&mut text, cause);
    finished(&text)
}
