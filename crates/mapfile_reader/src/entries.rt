//! Status lines and block lines, with their faults.
ghost use Rattle.std.specs.Prelude.{◌≡◌, ◌<◌, ◌^◌, IfOk, IfErr};
ghost use Rattle.mapfile_reader.specs.Cursor.{line_of};
ghost use Rattle.mapfile_text.specs.MapText.{BlockFault, IsBlockLine, IsStateLine, StateFault};

use crate::fields::{capped_block, capped_state};
use crate::lines::FilledLine;
use crate::numerals::LIMIT;
use block_list::block::Block;
use mapfile_text::read::MapError;
use mapfile_text::state::MapState;

/// Reads a status line.
pub(crate) fn read_state(line: &mut FilledLine<'_>) -> Result<MapState, MapError>
    ensures state { IfOk result (λ state. IsStateLine (line_of line.old) state) }
    ensures fault { IfErr result (λ e. StateFault (line_of line.old) e) }
    ensures kept { line.new ≡ record line.old { more = line.new.more } }
{
    let number = line.number();
    let Some((pos, current, pass)) = capped_state(line) else {
        return Err(MapError::BadStatusLine { line: number });
    };
    match u32::try_from(pass) {
        Ok(pass) if pos < LIMIT => Ok(MapState { pos, current, pass }),
        _ => Err(MapError::TooLarge { line: number }),
    }
}

/// Reads a block line.
pub(crate) fn read_block(line: &mut FilledLine<'_>) -> Result<Block, MapError>
    ensures block { IfOk result (λ block. IsBlockLine (line_of line.old) block) }
    ensures fault { IfErr result (λ e. BlockFault (line_of line.old) e) }
    ensures kept { line.new ≡ record line.old { more = line.new.more } }
{
    let number = line.number();
    let Some(block) = capped_block(line) else {
        return Err(MapError::BadBlockLine { line: number });
    };
    if block.pos.saturating_add(block.size) < LIMIT {
        Ok(block)
    } else {
        Err(MapError::TooLarge { line: number })
    }
}
