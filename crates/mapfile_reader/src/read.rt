//! The reading of a mapfile's text into its blocks and state.
ghost use Rattle.std.specs.Prelude.{◌≡◌, ◌⊎◌, ◌+◌, ◌-◌, ◌^◌, ◌<◌, ◌≤◌, ◌++◌, [], true, false, length, replicate, IfOk, IfErr, OnOk, IsTrue, if◌then◌else◌};
ghost use Rattle.block_list.specs.Stretches.{covered};
ghost use Rattle.mapfile_text.specs.MapText.{IsGap, IsMapText, Lists, ListsFault, PlaceFault, text_limit, IsRefused};
ghost use Rattle.mapfile_reader.specs.Checking.{IsMap};
ghost use Rattle.mapfile_reader.specs.Cursor.{line_of, no_comments};
ghost use Rattle.mapfile_reader.specs.Reading.{padding, gap_of};
ghost use Rattle.mapfile_text.specs.declared.read.MapError.TheVariants.{NoMemory as OutOfMemory};

use crate::check::{check_map, check_place};
use crate::entries::read_block;
use crate::lines::{FilledLine, FilledLines};
use block_list::block::Block;
use block_list::status::Status;
use block_list::tiles::Tiles;
use mapfile_text::read::{MapError, Mode};
use mapfile_text::state::MapState;
use plain_blocks::plain_tiles::PlainTiles;
use std::alloc::Global;

/// The most bytes that a mapfile may have.
pub const TEXT_LIMIT: usize = 268_435_456;

/// A mapfile that was read.
#[derive(Drop)]
pub struct ReadMap {
    /// How far the run that saved it had come.
    pub state: MapState,
    /// The position of the first block, 0 if none is listed.
    pub first: u64,
    /// Whether a block is listed.
    pub listed: bool,
    /// The statuses; the positions below the first block are non-tried.
    pub tiles: PlainTiles,
}

impl ReadMap {
    /// A map of no position, with room for this many lines' blocks, if there is memory for them at once, and for what
    /// may come before the first and after the last.
    fn blank(alloc: Global, state: MapState, lines: usize) -> ReadMap
        ensures state { result.state ≡ state }
        ensures first { result.first ≡ 0 }
        ensures listed { result.listed ≡ false }
        ensures statuses { result.tiles.statuses ≡ [] }
    {
        let mut tiles = PlainTiles::new(alloc);
        // Blocks that join take less, so a map may fit for which this is too much.
        let _ = tiles.reserve(lines.saturating_add(2));
        ReadMap {
            state,
            first: 0,
            listed: false,
            tiles,
        }
    }

    /// Puts the block of a line after the positions so far.
    fn put(&mut self, mode: Mode, line: &FilledLine<'_>, block: Block) -> Result<(), MapError>
        requires short { block.pos + block.size < 2 ^ 63 }
        requires blank { self.old.listed ≡ false → self.old.tiles.statuses ≡ [] }
        ensures listed { OnOk result (self.new.listed ≡ true) }
        ensures state { self.new.state ≡ self.old.state }
        ensures first { OnOk result (self.new.first ≡ (if self.old.listed then self.old.first else block.pos)) }
        ensures statuses { OnOk result (self.new.tiles.statuses
            ≡ self.old.tiles.statuses
            ++ (padding mode self.old.listed (length self.old.tiles.statuses) block.pos ++ covered block)) }
        ensures gap { OnOk result (IsTrue self.old.listed
            → IsGap mode (length self.old.tiles.statuses) block.pos
            (gap_of mode (length self.old.tiles.statuses) block.pos)) }
        ensures fault { IfErr result (λ e. (e ≡ OutOfMemory)
            ⊎ (IsTrue self.old.listed × PlaceFault mode (length self.old.tiles.statuses) (line_of line.now) block e)) }
    {
        if self.listed {
            fill_gap(&mut self.tiles, mode, line, block)?;
        } else {
            self.first = block.pos;
            self.listed = true;
            fill_up_to(&mut self.tiles, block.pos, Status::NonTried)?;
        }
        append(&mut self.tiles, block)
    }
}

/// Puts a block after the last position.
fn append(tiles: &mut PlainTiles, block: Block) -> Result<(), MapError>
    requires begins { block.pos ≡ length tiles.old.statuses }
    requires short { block.pos + block.size < 2 ^ 63 }
    ensures ok { OnOk result (tiles.new.statuses ≡ tiles.old.statuses ++ covered block) }
    ensures err { IfErr result (λ e. e ≡ OutOfMemory) }
{
    // The block begins at the end and is short, so only memory can be missing.
    tiles.push(block).map_err(|_| MapError::NoMemory)
}

/// Gives a status to the positions past the last one, up to an end.
fn fill_up_to(tiles: &mut PlainTiles, end: u64, status: Status) -> Result<(), MapError>
    requires later { length tiles.old.statuses ≤ end }
    requires short { end < 2 ^ 63 }
    ensures ok { OnOk result (tiles.new.statuses
        ≡ tiles.old.statuses ++ replicate (end - length tiles.old.statuses) status) }
    ensures err { IfErr result (λ e. e ≡ OutOfMemory) }
{
    let pos = tiles.end();
    let size = end - pos;
    append(tiles, Block { pos, size, status })
}

/// Fills what is between the last position and the block of a line.
fn fill_gap(
    tiles: &mut PlainTiles,
    mode: Mode,
    line: &FilledLine<'_>,
    block: Block,
) -> Result<(), MapError>
    requires { block.pos < 2 ^ 63 }
    ensures filled { OnOk result (tiles.new.statuses
        ≡ tiles.old.statuses ++ gap_of mode (length tiles.old.statuses) block.pos) }
    ensures gap { OnOk result (IsGap mode (length tiles.old.statuses) block.pos
        (gap_of mode (length tiles.old.statuses) block.pos)) }
    ensures fault { IfErr result (λ e. (e ≡ OutOfMemory)
        ⊎ PlaceFault mode (length tiles.old.statuses) (line_of line.now) block e) }
{
    check_place(mode, tiles.end(), line, block)?;
    match mode {
        Mode::Tight => Ok(()),
        Mode::Loose(status) => fill_up_to(tiles, block.pos, status),
    }
}

/// Reads the block lines that are left.
fn read_blocks(
    mut lines: FilledLines<'_>,
    mut map: ReadMap,
    mode: Mode,
) -> Result<ReadMap, MapError>
    requires first { map.first ≡ 0 }
    requires listed { map.listed ≡ false }
    requires statuses { map.tiles.statuses ≡ [] }
    ensures state { IfOk result (λ done. done.state ≡ map.state) }
    ensures lists { IfOk result (λ done.
        Lists mode (no_comments lines.entry) done.first done.listed done.tiles.statuses) }
    ensures fault { IfErr result (λ e. (e ≡ OutOfMemory) ⊎ ListsFault mode (no_comments lines.entry) e) }
{
    while let Some(mut line) = lines.first_said() {
        let block = read_block(&mut line)?;
        map.put(mode, &line, block)?;
        lines = line.lines_after();
    }
    Ok(map)
}

/// Reads the text of a mapfile, in time linear in it. Memory is asked for only once the text was found to be a map.
pub fn read_map(alloc: Global, text: &[u8], mode: Mode) -> Result<ReadMap, MapError>
    ensures size { IfOk result (λ map. length text.now ≤ text_limit) }
    ensures read { IfOk result (λ map. IsMapText text.now mode map.state map.first map.listed map.tiles.statuses) }
    ensures fault { IfErr result (λ e. ((e ≡ OutOfMemory) × (length text.now ≤ text_limit) × IsMap text.now mode)
        ⊎ IsRefused text.now mode e) }
{
    let shape = check_map(text, mode)?;
    let Some(status) = FilledLines::new(text).first_said() else {
        return Err(MapError::NoStatusLine);
    };
    read_blocks(
        status.lines_after(),
        ReadMap::blank(alloc, shape.state, shape.lines),
        mode,
    )
}
