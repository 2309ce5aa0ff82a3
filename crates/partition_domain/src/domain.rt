//! The map of a partition, and its text.
ghost use Rattle.std.specs.Prelude.{◌≡◌, ◌<◌, ◌≤◌, ◌^◌, [], IfOk, OnOk, OnErr};
ghost use Rattle.rescue_console.specs.declared.console.Channel.TheVariants.{Out};
ghost use Rattle.rescue_console.specs.ConsoleState.{Puts, PutsPart};
ghost use Rattle.mapfile_text.specs.Printed.{printed};
ghost use Rattle.partition_domain.specs.DomainMap.{domain_map, shown_state};

use crate::table::{Partition, SECTOR};
use block_list::status::Status;
use block_list::tiles::{NoMemory, Tiles};
use console_texts::printing::put_map;
use mapfile_text::heading::Heading;
use mapfile_text::state::{Current, MapState};
use plain_blocks::plain_tiles::PlainTiles;
use rescue_console::console::{Console, ConsoleFault};
use std::alloc::Global;

/// How many blocks a map of one partition wants room for, at most, as it is made.
const ROOM: usize = 3;

/// An empty map with room for that of any partition, so that none is wanted once the input was read.
pub fn make_room(alloc: Global) -> Result<PlainTiles, NoMemory>
    ensures empty { IfOk result (λ t. t.statuses ≡ []) }
    ensures room { IfOk result (λ t. 3 ≤ t.spare) }
{
    let mut tiles = PlainTiles::new(alloc);
    tiles.reserve(ROOM)?;
    Ok(tiles)
}

/// Makes an empty map that of a partition, on an input with a length in bytes.
fn mark(tiles: &mut PlainTiles, partition: Partition, length: u64)
    requires empty { tiles.old.statuses ≡ [] }
    requires room { 3 ≤ tiles.old.spare }
    requires first { partition.first < 2 ^ 34 }
    requires count { partition.count < 2 ^ 32 }
    requires short { length < 2 ^ 63 }
    ensures { tiles.new.statuses ≡ domain_map length partition }
{
    let start = partition.first * SECTOR as u64;
    let size = partition.count * SECTOR as u64;
    tiles.extend_to(length.max(start + size));
    if size > 0 {
        tiles.set(start, size, Status::Finished);
    }
}

/// Prints the map of a partition.
///
/// # Errors
///
/// `ConsoleFault` if a put failed; a beginning of the map was put then.
pub fn print_domain<P: Console>(
    console: &mut P,
    heading: &Heading,
    mut tiles: PlainTiles,
    partition: Partition,
    length: u64,
) -> Result<(), ConsoleFault>
    requires empty { tiles.statuses ≡ [] }
    requires room { 3 ≤ tiles.spare }
    requires first { partition.first < 2 ^ 34 }
    requires count { partition.count < 2 ^ 32 }
    requires short { length < 2 ^ 63 }
    ensures put { OnOk result (Puts Out (printed heading.now shown_state (domain_map length partition))
        (P.state console.old) (P.state console.new)) }
    ensures fault { OnErr result (PutsPart Out (printed heading.now shown_state (domain_map length partition))
        (P.state console.old) (P.state console.new)) }
{
    mark(&mut tiles, partition, length);
    let state = MapState {
        pos: 0,
        current: Current::Finished,
        pass: 1,
    };
    put_map(console, heading, state, &tiles)
}
