//! `ddrescueshow`: the top call.
ghost use Rattle.std.specs.Prelude.{◌≡◌, ℕ, List, IfOk, option_map};
ghost use Rattle.block_list.specs.Tiled.{Tiled, statuses_in};
ghost use Rattle.option_words.specs.declared.fault.UsageFault.{UsageFault as Fault};
ghost use Rattle.ddrescueshow_words.specs.Command.{AreInLimits, AreRefused, told_by};
ghost use Rattle.program_promise.specs.World.{told, handed};
ghost use Rattle.rescue_domain.specs.Parts.{covers};
ghost use Rattle.ddrescueshow_cli.specs.Work.{domain_of, is_too_large, text_of};
ghost use Rattle.ddrescueshow_cli.specs.Ddrescueshow.{Ddrescueshow, ShowDone, ShowWorked};

use crate::ending::{ShowEnding, Which};
use crate::form::Form;
use crate::frame::Frame;
use crate::load::{read_map, read_named};
use crate::picture::draw;
use crate::subject::Subject;
use block_list::tiles::{NoMemory, Tiles};
use crash_site::site::Site;
use ddrescueshow_words::command::{Command, read_command};
use ddrescueshow_words::options::ShowOptions;
use option_words::command_error::CommandError;
use option_words::words::Words;
use plain_blocks::plain_tiles::PlainTiles;
use program_promise::answer::say_ending;
use rescue_console::console::{Channel, Console};
use rescue_domain::domain::Domain;
use std::alloc::Global;

/// The most cells of a picture in SVG.
const MOST_RECTANGLES: u64 = 16_000;

/// The positions that are shown of maps that were read.
fn shown_of(
    alloc: Global,
    command: &Command<'_>,
    tiles: &PlainTiles,
    domain_map: &Option<PlainTiles>,
) -> Result<Domain, NoMemory>
    ensures { IfOk result (λ d. (x : ℕ) → covers d x ≡ domain_of (told_by command.now)
        (record { statuses = tiles.now.statuses; domain = statuses_in domain_map.now }) x) }
{
    let from = command.options.input_position;
    let size = command.options.size;
    let domain = Domain::within(alloc, from, size, tiles.end(), domain_map.as_ref())?;
    Ok(domain)
}

/// The picture of maps that were read.
fn draw_maps(
    alloc: Global,
    command: &Command<'_>,
    tiles: &PlainTiles,
    domain_map: &Option<PlainTiles>,
    terminal: bool,
) -> Result<Vec<u8>, NoMemory>
    requires { AreInLimits command.now.options }
    ensures { IfOk result (λ text. text.items ≡ text_of terminal (told_by command.now)
        (record { statuses = tiles.now.statuses; domain = statuses_in domain_map.now })) }
{
    let options = &command.options;
    let end = tiles.end();
    let domain = shown_of(alloc, command, tiles, domain_map)?;
    let form = Form::of(options, terminal);
    let subject = Subject {
        frame: Frame::of(options, end),
        tiles,
        domain: &domain,
    };
    let text = draw(alloc, form, &subject)?;
    Ok(text)
}

/// Whether options ask for more cells in SVG than are put there.
fn is_too_large(options: &ShowOptions) -> bool
    requires { AreInLimits options.now }
    ensures { result ≡ is_too_large options.now }
{
    options.svg && options.width * options.rows > MOST_RECTANGLES
}

/// Does what a command asks for: reads the maps, and puts the picture.
fn run<D: Site, P: Console>(
    alloc: Global,
    command: &Command<'_>,
    site: &mut D,
    console: &mut P,
    terminal: bool,
) -> ShowEnding
    requires { AreInLimits command.now.options }
    ensures { (words : List (List ℕ)) → ShowWorked terminal (told_by command.now) words result
        (handed (D.state site.old) (P.state console.old)) (handed (D.state site.new) (P.state console.new)) }
{
    if is_too_large(&command.options) {
        return ShowEnding::TooManyCells;
    }
    let tiles = match read_map(alloc, site, Which::RunMap, command.mapfile, false) {
        Ok(tiles) => tiles,
        Err(refusal) => return refusal,
    };
    let loose = command.options.loose;
    let domain_map = match read_named(alloc, site, Which::DomainMap, command.domain_map, loose) {
        Ok(domain_map) => domain_map,
        Err(refusal) => return refusal,
    };
    let Ok(text) = draw_maps(alloc, command, &tiles, &domain_map, terminal) else {
        return ShowEnding::NoMemory;
    };
    match console.put(Channel::Out, &text) {
        Ok(()) => ShowEnding::Done,
        Err(_) => ShowEnding::ConsoleFault,
    }
}

/// Does what the words ask for. Says how that ended, and whether nothing is to be said of it.
fn work<D: Site, P: Console>(
    alloc: Global,
    words: &Words,
    site: &mut D,
    console: &mut P,
    terminal: bool,
) -> (ShowEnding, bool)
    ensures done { ShowDone terminal words.now result.0 result.1 (handed (D.state site.old) (P.state console.old))
        (handed (D.state site.new) (P.state console.new)) }
    ensures untouched { (fault : Fault) → AreRefused words.now fault → site.new ≡ site.old }
{
    let command = match read_command(alloc, words) {
        Ok(command) => command,
        Err(CommandError::NoMemory) => return (ShowEnding::NoMemory, false),
        Err(CommandError::Usage { fault, quiet }) => return (ShowEnding::Usage(fault), quiet),
    };
    let ending = run(alloc, &command, site, console, terminal);
    (ending, command.options.quiet)
}

/// Draws a mapfile: `[options] mapfile`, with the options of `ddrescueshow_words::options`. Unless the picture was put,
/// one message says why, on the console's second channel. `terminal` says whether standard output is a terminal.
///
/// The refusals come in this order: words that ask for nothing; too many cells for SVG; a mapfile that isn't there, or
/// is no map; the domain map, in the same way. A read of a map may fail, the picture may fail to be put, and memory may
/// run out. A map in use by a rescue is read as it was last saved.
pub fn ddrescueshow<D: Site, P: Console>(
    alloc: Global,
    words: &Words,
    site: &mut D,
    console: &mut P,
    terminal: bool,
) -> ShowEnding
    ensures promise { Ddrescueshow terminal (told words.now result (handed (D.state site.old) (P.state console.old))
        (handed (D.state site.new) (P.state console.new))) }

    // Words that are refused touch nothing but standard error.
    ensures untouched { (fault : Fault) → AreRefused words.now fault → site.new ≡ site.old }
{
    let (ending, quiet) = work(alloc, words, site, console, terminal);
    say_ending(console, ending, quiet);
    ending
}
