//! Prints maps on a console.
ghost use Rattle.std.specs.Prelude.{◌≡◌, OnOk, OnErr};
ghost use Rattle.rescue_console.specs.declared.console.Channel.TheVariants.{Out};
ghost use Rattle.rescue_console.specs.ConsoleState.{Puts, PutsPart};
ghost use Rattle.mapfile_text.specs.Printed.{printed};

use arrayvec::ArrayVec;
use block_list::tiles::Tiles;
use mapfile_text::heading::Heading;
use mapfile_text::printer::MapPrinter;
use mapfile_text::state::MapState;
use rescue_console::console::{Channel, Console, ConsoleFault};

/// Puts the text of a map on a console's first channel, in pieces of 4,096 bytes. It takes no memory.
///
/// # Errors
///
/// `ConsoleFault` if a put failed; a beginning of the text was put then.
pub fn put_map<T: Tiles, P: Console>(
    console: &mut P,
    heading: &Heading,
    state: MapState,
    tiles: &T,
) -> Result<(), ConsoleFault>
    ensures put { OnOk result (Puts Out (printed heading.now state (T.statuses tiles.now))
        (P.state console.old) (P.state console.new)) }
    ensures fault { OnErr result (PutsPart Out (printed heading.now state (T.statuses tiles.now))
        (P.state console.old) (P.state console.new)) }
{
    let mut printer = MapPrinter::begin();
    let mut piece = ArrayVec::new();
    'pieces: while printer.next(state, heading, tiles, &mut piece) {
        let Ok(()) = console.put(Channel::Out, piece.as_slice()) else {
            return Err(ConsoleFault);
        };
    }
    Ok(())
}
