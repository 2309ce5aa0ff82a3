//! Whether a text is a map, without memory.
ghost use Rattle.std.specs.Prelude.{◌≡◌, ◌≢◌, ◌+◌, ◌<◌, ◌≤◌, ◌^◌, true, length, OnOk, IfOk, IfErr, IsTrue, if◌then◌else◌};
ghost use Rattle.mapfile_text.specs.MapText.{IsGap, ListsFault, PlaceFault, text_limit, IsRefused};
ghost use Rattle.mapfile_reader.specs.Cursor.{line_of, no_comments};
ghost use Rattle.mapfile_reader.specs.Reading.{gap_of};
ghost use Rattle.mapfile_reader.specs.Checking.{IsMapShape, ListsShape};
ghost use Rattle.mapfile_text.specs.declared.read.MapError.TheVariants.{NoMemory as OutOfMemory};

use crate::entries::{read_block, read_state};
use crate::lines::{FilledLine, FilledLines};
use crate::read::TEXT_LIMIT;
use block_list::block::Block;
use mapfile_text::read::{MapError, Mode};
use mapfile_text::state::MapState;

/// What a mapfile says, except its blocks.
#[derive(Clone, Copy, Debug, PartialEq, Eq)]
pub struct MapShape {
    /// How far the run that saved it had come.
    pub state: MapState,
    /// The position of the first block, 0 if none is listed.
    pub first: u64,
    /// Whether a block is listed.
    pub listed: bool,
    /// The position past the last block.
    pub end: u64,
    /// The number of its block lines.
    pub lines: usize,
}

impl MapShape {
    /// Puts the block of a line after the positions so far.
    fn put(&mut self, mode: Mode, line: &FilledLine<'_>, block: Block) -> Result<(), MapError>
        requires short { block.pos + block.size < 2 ^ 63 }
        requires few { self.old.lines + 1 < 2 ^ 64 }
        ensures put { OnOk result (self.new ≡ record self.old {
          first = (if self.old.listed then self.old.first else block.pos);
          listed = true;
          end = block.pos + block.size;
          lines = self.old.lines + 1;
        }) }
        ensures gap { OnOk result (IsTrue self.old.listed
            → IsGap mode self.old.end block.pos (gap_of mode self.old.end block.pos)) }
        ensures fault { IfErr result (λ e.
            IsTrue self.old.listed × PlaceFault mode self.old.end (line_of line.now) block e) }
    {
        if self.listed {
            check_place(mode, self.end, line, block)?;
        } else {
            self.first = block.pos;
            self.listed = true;
        }
        self.end = block.pos + block.size;
        self.lines += 1;
        Ok(())
    }
}

/// Whether the block of a line may come after one that ended at a place.
pub(crate) fn check_place(
    mode: Mode,
    end: u64,
    line: &FilledLine<'_>,
    block: Block,
) -> Result<(), MapError>
    ensures gap { OnOk result (IsGap mode end block.pos (gap_of mode end block.pos)) }
    ensures fault { IfErr result (PlaceFault mode end (line_of line.now) block) }
{
    let line = line.number();
    if block.pos < end {
        return Err(MapError::Overlap { line });
    }
    match mode {
        Mode::Tight if end < block.pos => Err(MapError::Gap { line }),
        _ => Ok(()),
    }
}

/// The shape of the block lines that are left.
fn check_blocks(
    mut lines: FilledLines<'_>,
    state: MapState,
    mode: Mode,
) -> Result<MapShape, MapError>
    requires { length (no_comments lines) < 2 ^ 64 }
    ensures state { IfOk result (λ shape. shape.state ≡ state) }
    ensures lists { IfOk result (ListsShape mode (no_comments lines.entry)) }
    ensures fault { IfErr result (ListsFault mode (no_comments lines.entry)) }
{
    let mut shape = MapShape {
        state,
        first: 0,
        listed: false,
        end: 0,
        lines: 0,
    };
    while let Some(mut line) = lines.first_said() {
        let block = read_block(&mut line)?;
        shape.put(mode, &line, block)?;
        lines = line.lines_after();
    }
    Ok(shape)
}

/// Checks the text of a mapfile without memory, in one pass over it.
pub fn check_map(text: &[u8], mode: Mode) -> Result<MapShape, MapError>
    ensures size { IfOk result (λ shape. length text.now ≤ text_limit) }
    ensures map { IfOk result (IsMapShape text.now mode) }
    ensures fault { IfErr result (IsRefused text.now mode) }
    ensures no_memory { IfErr result (λ e. e ≢ OutOfMemory) }
{
    if text.len() > TEXT_LIMIT {
        return Err(MapError::TooLong);
    }
    let Some(mut line) = FilledLines::new(text).first_said() else {
        return Err(MapError::NoStatusLine);
    };
    let state = read_state(&mut line)?;
    check_blocks(line.lines_after(), state, mode)
}
