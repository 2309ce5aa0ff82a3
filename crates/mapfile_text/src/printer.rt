//! The text of a mapfile in pieces of 4,096 bytes.
ghost use Rattle.std.specs.Prelude.{◌≡◌, ◌⊎◌, ◌+◌, ◌-◌, ◌<◌, ◌≤◌, ◌^◌, ◌↔◌, ◌++◌, ◌∷◌, IsTrue, MatchBool, List, [], length, map, take, drop};
ghost use Rattle.block_list.specs.declared.status.Status.{Status};
ghost use Rattle.arrayvec.specs.ArrayVec.{array_vec_len};
ghost use Rattle.mapfile_text.specs.declared.state.MapState.{MapState};
ghost use Rattle.mapfile_text.specs.declared.text_position.TextPart.TheVariants.{Words};
ghost use Rattle.mapfile_text.specs.HeadingLines.{HeadingLines};
ghost use Rattle.mapfile_text.specs.Printed.{printed, shown_byte};
ghost use Rattle.mapfile_text.specs.Pieces.{pieces_of};
ghost use Rattle.mapfile_text.specs.LeftOf.{heading_parts, number_of, position_of, map_lines, parts_from, left_of, IsAppended};

use crate::heading::{Heading, shown_byte};
use crate::made_lines::{
    Line, append, append_block, append_now, append_program, append_start, append_state,
};
use crate::state::MapState;
use crate::text_position::{TextPart, TextPosition};
use arrayvec::ArrayVec;
use block_list::block::Block;
use block_list::near::Near;
use block_list::tiles::Tiles;
use std::marker::Model;

/// Prints a mapfile piece by piece. It keeps the place in the text and where to look first in the map, and nothing of
/// the text or its length.
#[derive(Drop)]
pub struct MapPrinter {
    place: TextPosition,
    near: Near,
}

impl Model for MapPrinter {
    ghost use Rattle.mapfile_text.specs.declared.text_position.TextPosition.{TextPosition};

    ghost Value = { TextPosition };

    ghost view = { λ p. p.place };
}

impl MapPrinter {
    /// At the start of the text.
    pub fn begin() -> MapPrinter
        ensures { (heading : HeadingLines) (state : MapState) (statuses : List Status)
            → left_of result heading state statuses ≡ printed heading state statuses }
    {
        MapPrinter {
            place: TextPosition {
                part: TextPart::Program,
                went: 0,
            },
            near: Near::start(),
        }
    }

    /// Replaces `out` with the next piece of the text: 4,096 bytes, or as many as are left. False if nothing is left.
    /// It takes no memory.
    pub fn next<T: Tiles>(
        &mut self,
        state: MapState,
        heading: &Heading,
        tiles: &T,
        out: &mut ArrayVec<u8, 4096>,
    ) -> bool
        ensures piece { out.new.items ≡ take 4096 (left_of self.old heading.now state (T.statuses tiles.now)) }
        ensures rest { left_of self.new heading.now state (T.statuses tiles.now)
            ≡ drop 4096 (left_of self.old heading.now state (T.statuses tiles.now)) }
        ensures more { IsTrue result ↔ (0 < length (left_of self.old heading.now state (T.statuses tiles.now))) }
        ensures pieces { MatchBool result
            (pieces_of (left_of self.old heading.now state (T.statuses tiles.now))
            ≡ out.new.items ∷ pieces_of (left_of self.new heading.now state (T.statuses tiles.now)))
            (pieces_of (left_of self.old heading.now state (T.statuses tiles.now)) ≡ []) }
    {
        out.clear();
        self.place = fill(self.place, state, heading, tiles, &mut self.near, out);
        !out.is_empty()
    }
}

/// Fills an empty piece from a place on, and returns the place after it.
fn fill<T: Tiles>(
    begun: TextPosition,
    state: MapState,
    heading: &Heading,
    tiles: &T,
    near: &mut Near,
    out: &mut ArrayVec<u8, 4096>,
) -> TextPosition
    requires { out.old.items ≡ [] }
    ensures piece { out.new.items ≡ take 4096 (left_of begun heading.now state (T.statuses tiles.now)) }
    ensures rest { left_of result heading.now state (T.statuses tiles.now)
        ≡ drop 4096 (left_of begun heading.now state (T.statuses tiles.now)) }
{
    let end = tiles.end();
    let mut place = begun;
    while is_there(place.part, end) {
        let room = out.remaining_capacity();
        if room == 0 {
            return place;
        }
        let (len, next) = append_part(out, place, state, heading, tiles, near);
        place = place.after(len, next, room);
    }
    place
}

/// Whether the text has a part, by the map's end.
fn is_there(part: TextPart, end: u64) -> bool
    ensures { IsTrue result ↔ (number_of part < 9) ⊎ (position_of part < end) }
{
    match part {
        TextPart::Block(pos) => pos < end,
        _ => true,
    }
}

/// Appends what is left of a part, or as much as there is room for, and returns the length of the whole part and the
/// part after it.
fn append_part<T: Tiles>(
    out: &mut ArrayVec<u8, 4096>,
    place: TextPosition,
    state: MapState,
    heading: &Heading,
    tiles: &T,
    near: &mut Near,
) -> (usize, TextPart)
    requires there { (number_of place.part < 9) ⊎ (position_of place.part < length (T.statuses tiles.now)) }
    requires short { length (T.statuses tiles.now) < 2 ^ 63 }
    ensures { IsAppended out.old.items out.new.items place.went result.0
        (parts_from place.part heading.now state (T.statuses tiles.now))
        (parts_from result.1 heading.now state (T.statuses tiles.now)) }
{
    match place.part {
        TextPart::Words => {
            append_words(out, heading.line(), place.went);
            (heading.line().len(), TextPart::Newline)
        }
        TextPart::Block(pos) => {
            let mut line = Line::new();
            let end = append_rest(&mut line, pos, tiles, near);
            append_line(out, line.as_slice(), place.went);
            (line.len(), TextPart::Block(end))
        }
        _ => {
            let mut line = Line::new();
            append_heading(&mut line, place.part, state, heading);
            append_line(out, line.as_slice(), place.went);
            (line.len(), place.part.next())
        }
    }
}

/// Appends the line of what is left from a position on of the stretch that holds it, and returns the stretch's end.
fn append_rest<T: Tiles>(line: &mut Line, pos: u64, tiles: &T, near: &mut Near) -> u64
    requires empty { line.old.items ≡ [] }
    requires there { pos < length (T.statuses tiles.now) }
    requires short { length (T.statuses tiles.now) < 2 ^ 63 }
    ensures { map_lines pos (T.statuses tiles.now) ≡ line.new.items ∷ map_lines result (T.statuses tiles.now) }
{
    let stretch = tiles.stretch_near(near, pos);
    let end = stretch.pos + stretch.size;
    let rest = Block {
        pos,
        size: end - pos,
        status: stretch.status,
    };
    append_block(line, rest);
    end
}

/// Appends a part of the heading that isn't the words of the command line.
fn append_heading(line: &mut Line, part: TextPart, state: MapState, heading: &Heading)
    requires empty { line.old.items ≡ [] }
    requires there { number_of part < 9 }
    requires other { part ≡ Words → ⊥ }
    ensures { drop (number_of part) (heading_parts heading.now state)
        ≡ line.new.items ∷ drop (number_of part + 1) (heading_parts heading.now state) }
{
    match part {
        TextPart::Program => append_program(line, heading.program()),
        TextPart::Label => append(line, b"# Command line: "),
        TextPart::Newline => append(line, b"\n"),
        TextPart::Start => append_start(line, heading),
        TextPart::Now => append_now(line, heading),
        TextPart::StateColumns => append(line, b"# current_pos  current_status  current_pass\n"),
        TextPart::State => append_state(line, state),
        TextPart::Columns => append(line, b"#      pos        size  status\n"),
        TextPart::Words | TextPart::Block(_) => unreachable!(),
    }
}

/// Appends what is left of a line, or as much as there is room for.
fn append_line(out: &mut ArrayVec<u8, 4096>, line: &[u8], went: usize)
    ensures { out.new.items ≡ out.old.items ++ take (4096 - array_vec_len out.old) (drop went line.now) }
{
    let _fits = out.try_extend_from_slice(fitting(line, went, out.remaining_capacity()));
}

/// Appends what is left of the words of a command line, or as much as there is room for.
fn append_words(out: &mut ArrayVec<u8, 4096>, words: &[u8], went: usize)
    ensures { out.new.items
        ≡ out.old.items ++ take (4096 - array_vec_len out.old) (drop went (map shown_byte words.now)) }
{
    for byte in fitting(words, went, out.remaining_capacity()) {
        out.push(shown_byte(*byte));
    }
}

/// What is left of a text, or as much as there is room for.
fn fitting(text: &[u8], went: usize, room: usize) -> &[u8]
    ensures text { result.now ≡ take room (drop went text.now) }
    ensures fits { length result.now ≤ room }
{
    if text.len() <= went {
        return &[];
    }
    let rest = &text[went..];
    if rest.len() <= room {
        rest
    } else {
        &rest[..room]
    }
}
