//! The fields of a line, and what they spell.
ghost use Rattle.std.specs.Prelude.{◌≡◌, ◌∷◌, ◌≤◌, ◌<◌, ◌||◌, [], not, length, IfSome, MatchOption};
ghost use Rattle.std.specs.Option.{option_map};
ghost use Rattle.std.specs.List.{position_or_len};
ghost use Rattle.mapfile_text.specs.Lines.{fields, is_blank, is_newline};
ghost use Rattle.mapfile_reader.specs.Cursor.{first_line, after_line, line_of};
ghost use Rattle.mapfile_text.specs.Fields.{
  begins_with_digit,
  block_of,
  current_of_field,
  pass_of,
  state_of,
  status_of_field,
};
ghost use Rattle.mapfile_reader.specs.Reading.{capped, capped_block, capped_state};

use crate::lines::FilledLine;
use crate::numerals::capped_numeral;
use block_list::block::Block;
use block_list::status::Status;
use mapfile_text::state::Current;

fn is_blank(byte: u8) -> bool
    ensures { result ≡ is_blank byte }
{
    matches!(byte, b' ' | b'\t' | b'\r')
}

/// Whether a byte ends a field: it is blank, or ends the line.
fn ends_field(byte: u8) -> bool
    ensures { result ≡ (is_blank byte || is_newline byte) }
{
    byte <= b' ' && (is_blank(byte) || byte == b'\n')
}

/// Where the first byte that isn't blank is, or the text's length.
fn field_start(text: &[u8]) -> usize
    ensures value { result ≡ position_or_len (λ c. not (is_blank c)) text.now }
    ensures within { result ≤ length text.now }
{
    text.iter()
        .position(|byte| !is_blank(*byte))
        .unwrap_or(text.len())
}

/// Where the field ends with which a text begins.
fn field_end(text: &[u8]) -> usize
    ensures value { result ≡ position_or_len (λ c. is_blank c || is_newline c) text.now }
    ensures within { result ≤ length text.now }
{
    text.iter()
        .position(|byte| ends_field(*byte))
        .unwrap_or(text.len())
}

/// The first field of the first line of a text, and what comes after it.
pub(crate) fn first_field(text: &[u8]) -> Option<(&[u8], &[u8])>
    ensures field { MatchOption result (fields (first_line text.now) ≡ [])
        (λ parts. fields (first_line text.now) ≡ parts.0.now ∷ fields (first_line parts.1.now)) }
    ensures after { IfSome result (λ parts. after_line parts.1.now ≡ after_line text.now) }
    ensures shorter { IfSome result (λ parts. length parts.1.now < length text.now) }
{
    let text = &text[field_start(text)..];
    let end = field_end(text);
    if end == 0 {
        return None;
    }
    Some(text.split_at(end))
}

fn status_of(field: &[u8]) -> Option<Status>
    ensures { result ≡ status_of_field field.now }
{
    match field {
        [symbol] => Status::of_symbol(*symbol),
        _ => None,
    }
}

fn current_of(field: &[u8]) -> Option<Current>
    ensures { result ≡ current_of_field field.now }
{
    match field {
        [b'?'] => Some(Current::Copying),
        [b'*'] => Some(Current::Trimming),
        [b'/'] => Some(Current::Scraping),
        [b'-'] => Some(Current::Retrying),
        [b'F'] => Some(Current::Filling),
        [b'G'] => Some(Current::Generating),
        [b'+'] => Some(Current::Finished),
        _ => None,
    }
}

fn begins_with_digit(field: &[u8]) -> bool
    ensures { result ≡ begins_with_digit field.now }
{
    matches!(field, [b'0'..=b'9', ..])
}

/// The pass by the fields that are left after the current status.
fn capped_pass(line: &mut FilledLine<'_>) -> Option<u64>
    ensures pass { result ≡ option_map capped (pass_of line.old.more) }
    ensures kept { line.new ≡ record line.old { more = line.new.more } }
{
    match line.take_field() {
        Some(field) if begins_with_digit(field) => {
            capped_numeral(field).filter(|pass| *pass > 0)
        }
        _ => Some(1),
    }
}

/// Position, current status and pass of a status line, numbers above the limit as the limit.
pub(crate) fn capped_state(line: &mut FilledLine<'_>) -> Option<(u64, Current, u64)>
    ensures state { result ≡ option_map capped_state (state_of (line_of line.old).fields) }
    ensures kept { line.new ≡ record line.old { more = line.new.more } }
{
    let current = line.take_field()?;
    let pos = capped_numeral(line.first())?;
    let current = current_of(current)?;
    let pass = capped_pass(line)?;
    Some((pos, current, pass))
}

/// The block of a block line, numbers above the limit as the limit.
pub(crate) fn capped_block(line: &mut FilledLine<'_>) -> Option<Block>
    ensures block { result ≡ option_map capped_block (block_of (line_of line.old).fields) }
    ensures kept { line.new ≡ record line.old { more = line.new.more } }
{
    let size = line.take_field()?;
    let status = line.take_field()?;
    Some(Block {
        pos: capped_numeral(line.first())?,
        size: capped_numeral(size)?,
        status: status_of(status)?,
    })
}
