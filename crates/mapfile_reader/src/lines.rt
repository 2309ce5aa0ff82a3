//! The lines of a text, one after another: those that aren't blank, and those of them that are no comments.
ghost use Rattle.std.specs.Prelude.{◌≡◌, ℕ, ◌+◌, ◌<◌, ◌≤◌, ◌^◌, ◌∷◌, [], length, MatchOption};
ghost use Rattle.mapfile_text.specs.Lines.{filled_lines, said_lines, is_comment};
ghost use Rattle.mapfile_reader.specs.Cursor.{after_line, filled_from, line_of, no_comments};

use crate::fields::first_field;
use std::marker::Model;

/// A line that isn't blank. Its fields are taken one after another; the first can be seen at any time.
#[derive(Drop)]
pub struct FilledLine<'a> {
    number: usize,
    first: &'a [u8],
    /// The text after the fields that were taken.
    rest: &'a [u8],
}

impl<'a> Model for FilledLine<'a> {
    ghost use Rattle.std.specs.Prelude.{◌+◌, ◌<◌, ◌^◌, length};
    ghost use Rattle.mapfile_text.specs.Lines.{fields};
    ghost use Rattle.mapfile_reader.specs.Cursor.{OpenLine, first_line, after_line, filled_from};

    ghost Value = { OpenLine };

    ghost view = { λ l. record {
      number = l.number;
      first = l.first.now;
      more = fields (first_line l.rest.now);
      after = filled_from (l.number + 1) (after_line l.rest.now);
    } };

    ghost invariant = { λ l. l.number + length l.rest.now + 1 < 2 ^ 64 };
}

impl<'a> FilledLine<'a> {
    /// The number of the line in the text, counted from 1.
    pub fn number(&self) -> usize
        ensures { result ≡ self.now.number }
    {
        self.number
    }

    /// The first field of the line.
    pub fn first(&self) -> &'a [u8]
        ensures { result.now ≡ self.now.first }
    {
        self.first
    }

    /// Whether the line is a comment.
    pub fn is_comment(&self) -> bool
        ensures { result ≡ is_comment (line_of self.now).fields }
    {
        matches!(self.first, [b'#', ..])
    }

    /// Takes the first of the fields that are left, which are those after the first one to begin with.
    pub fn take_field(&mut self) -> Option<&'a [u8]>
        ensures taken { MatchOption result (self.old.more ≡ []) (λ field. self.old.more ≡ field.now ∷ self.new.more) }
        ensures kept { self.new ≡ record self.old { more = self.new.more } }
    {
        let (field, rest) = first_field(self.rest)?;
        self.rest = rest;
        Some(field)
    }

    /// The lines after this one.
    pub fn lines_after(&self) -> FilledLines<'a>
        ensures { result ≡ self.now.after }
    {
        FilledLines {
            number: self.number + 1,
            rest: after_line(self.rest),
        }
    }
}

/// The lines of a text that aren't blank, or those of them after a line.
#[derive(Drop)]
pub struct FilledLines<'a> {
    /// The number of the line with which the rest begins.
    number: usize,
    rest: &'a [u8],
}

impl<'a> Model for FilledLines<'a> {
    ghost use Rattle.std.specs.Prelude.{List, ◌+◌, ◌<◌, ◌^◌, length};
    ghost use Rattle.mapfile_text.specs.Lines.{Line};
    ghost use Rattle.mapfile_reader.specs.Cursor.{filled_from};

    ghost Value = { List Line };

    ghost view = { λ l. filled_from l.number l.rest.now };

    ghost invariant = { λ l. l.number + length l.rest.now < 2 ^ 64 };
}

impl<'a> FilledLines<'a> {
    /// The lines of a text.
    pub fn new(text: &'a [u8]) -> FilledLines<'a>
        requires { length text.now < 2 ^ 63 }
        ensures filled { result ≡ filled_lines text.now }
        ensures said { no_comments result ≡ said_lines text.now }
        ensures few { length (no_comments result) ≤ length text.now + 1 }
    {
        FilledLines {
            number: 1,
            rest: text,
        }
    }

    /// The first of the lines.
    pub fn first(&self) -> Option<FilledLine<'a>>
        ensures { MatchOption result (self.now ≡ []) (λ line. self.now ≡ line_of line ∷ line.after) }
    {
        let mut number = self.number;
        let mut rest = self.rest;
        while !rest.is_empty() {
            if let Some((first, rest)) = first_field(rest) {
                return Some(FilledLine {
                    number,
                    first,
                    rest,
                });
            }
            number += 1;
            rest = after_line(rest);
        }
        None
    }

    /// The first of the lines that says something: of those that are no comments.
    pub fn first_said(&self) -> Option<FilledLine<'a>>
        ensures { MatchOption result (no_comments self.now ≡ [])
            (λ line. no_comments self.now ≡ line_of line ∷ no_comments line.after) }
    {
        let mut lines = FilledLines {
            number: self.number,
            rest: self.rest,
        };
        while let Some(line) = lines.first() {
            if !line.is_comment() {
                return Some(line);
            }
            lines = line.lines_after();
        }
        None
    }
}

/// What comes after the newline of the first line of a text.
fn after_line(text: &[u8]) -> &[u8]
    ensures after { result.now ≡ after_line text.now }
    ensures shorter { 0 < length text.now → length result.now < length text.now }
    ensures within { length result.now ≤ length text.now }
{
    match text.iter().position(|byte| *byte == b'\n') {
        Some(end) => &text[end + 1..],
        None => &text[text.len()..],
    }
}
