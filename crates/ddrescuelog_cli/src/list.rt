//! Lists the blocks of the output in which positions of some types lie.
ghost use Rattle.std.specs.Prelude.{◌≡◌, ◌⊎◌, ℕ, ◌<◌, ◌≤◌, ◌^◌, true, length, flat_map, unwrap_or, is_ok};
ghost use Rattle.rescue_domain.specs.Parts.{covers};
ghost use Rattle.rescue_domain.specs.Domain.{whole_domain};
ghost use Rattle.rescue_domain.specs.Places.{AreAllPlaced, IsAnyBeyond};
ghost use Rattle.map_counts.specs.At.{IsWithinMap};
ghost use Rattle.map_algebra.specs.Listing.{listed, wanted_of};
ghost use Rattle.ddrescuelog_cli.specs.Maps.{shape_of};
ghost use Rattle.ddrescuelog_cli.specs.Results.{number_line};
ghost use Rattle.ddrescuelog_cli.specs.Printing.{PutsInPieces, PutsPieces};

use crate::ending::LogEnding;
use crate::load::LoadedMaps;
use crate::pieces::{Buffer, add_line, printed, put_rest};
use block_list::tiles::Tiles;
use block_list::types::TypeSet;
use console_texts::message::{Message, add_number};
use ddrescuelog_words::options::LogOptions;
use map_algebra::listing::Listing;
use option_words::fault::UsageFault;
use rescue_console::console::{Console, ConsoleFault};
use rescue_domain::domain::Domain;
use rescue_domain::places::places_fit;

/// A number on a line of its own.
fn make_number_line(number: u64) -> Message
    ensures { result.items ≡ number_line number }
{
    let mut line = Message::new();
    add_number(&mut line, "", number as usize, "\n");
    line
}

/// Puts the numbers of blocks, one a line.
fn put_numbers<T: Tiles, P: Console>(
    console: &mut P,
    listing: &mut Listing,
    tiles: &T,
    domain: &Domain,
) -> Result<(), ConsoleFault>
    requires begin { listing.old.least ≡ 0 }
    requires within { IsWithinMap (covers domain.now) (T.statuses tiles.now) }
    requires from { (x : ℕ) → covers domain.now x ≡ true → listing.old.shape.ipos ≤ x }
    requires placed { AreAllPlaced (covers domain.now) listing.old.shape.ipos listing.old.shape.opos }
    ensures { PutsPieces
        (flat_map number_line (listed (wanted_of listing.old (covers domain.now) (T.statuses tiles.now))))
        (is_ok result) (P.state console.old) (P.state console.new) }
{
    let mut buffer = Buffer::new();
    'numbers: while let Some(number) = listing.next(tiles, domain) {
        let line = make_number_line(number);
        let Ok(()) = add_line(console, &mut buffer, line.as_slice()) else {
            return Err(ConsoleFault);
        };
    }
    put_rest(console, &buffer)
}

/// Puts the numbers of the blocks in which positions of some types lie, unless one has no place in the output.
pub(crate) fn list_blocks<P: Console>(
    options: &LogOptions,
    types: TypeSet,
    loaded: &LoadedMaps,
    console: &mut P,
) -> LogEnding
    requires block { 0 < options.now.block }
    requires to { unwrap_or options.now.output_position options.now.input_position < 2 ^ 63 }
    requires within { IsWithinMap (covers loaded.now.domain) loaded.now.tiles.statuses }
    requires inside { (x : ℕ) → covers loaded.now.domain x ≡ true
        → whole_domain options.now.input_position options.now.size (length loaded.now.tiles.statuses) x ≡ true }
    ensures beyond { result ≡ LogEnding.Usage UsageFault.PlaceTooLarge
        → IsAnyBeyond (whole_domain options.now.input_position options.now.size (length loaded.now.tiles.statuses))
        options.now.input_position (unwrap_or options.now.output_position options.now.input_position) }
    ensures fit { (result ≡ LogEnding.Usage UsageFault.PlaceTooLarge → ⊥)
        → AreAllPlaced (whole_domain options.now.input_position options.now.size (length loaded.now.tiles.statuses))
        options.now.input_position (unwrap_or options.now.output_position options.now.input_position) }
    ensures answers { (result ≡ LogEnding.Usage UsageFault.PlaceTooLarge) ⊎ (result ≡ LogEnding.Done)
        ⊎ (result ≡ LogEnding.ConsoleFault) }
    ensures put { PutsInPieces result
        (flat_map number_line (listed (record {
          domain = covers loaded.now.domain;
          types = types;
          shape = shape_of options.now;
          statuses = loaded.now.tiles.statuses;
        }))) (P.state console.old) (P.state console.new) }
{
    let from = options.input_position;
    let to = options.output_position.unwrap_or(from);
    if !places_fit(from, options.size, to, loaded.tiles.end()) {
        return LogEnding::Usage(UsageFault::PlaceTooLarge);
    }
    let mut listing = Listing::begin(types, from, to, options.block);
    printed(put_numbers(console, &mut listing, &loaded.tiles, &loaded.domain))
}
