//! Prints maps on standard output, under a heading.
ghost use Rattle.std.specs.Prelude.{◌≡◌, ◌⊎◌, true, OnOk, OnErr, IfOk};
ghost use Rattle.mapfile_text.specs.Printed.{printed};
ghost use Rattle.ddrescuelog_cli.specs.Printing.{PutsAs};

use crate::ending::LogEnding;
use crate::pieces::printed;
use block_list::tiles::NoMemory;
use console_texts::printing::put_map;
use mapfile_text::heading::Heading;
use mapfile_text::state::MapState;
use plain_blocks::plain_tiles::PlainTiles;
use rescue_console::console::Console;

/// Puts a map that was made, under a heading.
pub(crate) fn print_map<P: Console>(
    console: &mut P,
    heading: &Heading,
    state: MapState,
    made: Result<PlainTiles, NoMemory>,
) -> LogEnding
    ensures starved { OnErr made ((result ≡ LogEnding.NoMemory) × (P.state console.new ≡ P.state console.old)) }
    ensures answers { OnOk made ((result ≡ LogEnding.Done) ⊎ (result ≡ LogEnding.ConsoleFault)) }
    ensures put { IfOk made (λ t. PutsAs true result (printed heading.now state t.statuses)
        (P.state console.old) (P.state console.new)) }
{
    match made {
        Ok(tiles) => printed(put_map(console, heading, state, &tiles)),
        Err(_) => LogEnding::NoMemory,
    }
}
