//! `ddrescuelog`: the top call.
ghost use Rattle.std.specs.Prelude.{◌≡◌, ℕ, List, false, IfOk};
ghost use Rattle.mapfile_text.specs.declared.heading.Program.TheVariants.{Ddrescuelog as Log};
ghost use Rattle.rescue_console.specs.FeedState.{FeedState};
ghost use Rattle.option_words.specs.declared.fault.UsageFault.{UsageFault as Fault};
ghost use Rattle.option_words.specs.Words.{command_line};
ghost use Rattle.program_promise.specs.World.{told};
ghost use Rattle.ddrescuelog_words.specs.Modes.{creates};
ghost use Rattle.ddrescuelog_words.specs.Command.{AreInLimits, AreRefused, told_by};
ghost use Rattle.ddrescuelog_cli.specs.Names.{program_name};
ghost use Rattle.ddrescuelog_cli.specs.After.{SiteLeft};
ghost use Rattle.ddrescuelog_cli.specs.Worked.{Ran};
ghost use Rattle.ddrescuelog_cli.specs.Ddrescuelog.{Ddrescuelog, LogDone, LogWorked, handed};

use crate::create::{Marks, create_map};
use crate::ending::LogEnding;
use crate::find::find;
use crate::load::load_maps;
use crate::message::PROGRAM;
use crate::remove::remove_done;
use block_list::tiles::NoMemory;
use crash_site::site::Site;
use ddrescuelog_words::command::{Command, read_command};
use ddrescuelog_words::mode::LogMode;
use mapfile_text::heading::{Heading, Program};
use option_words::command_error::CommandError;
use option_words::words::Words;
use program_promise::answer::say_ending;
use program_promise::heading::make_heading;
use rescue_console::console::Console;
use rescue_console::feed::Feed;
use std::alloc::Global;

/// Does what a mode does that reads its mapfile: reads the maps, and goes by what they say.
fn run_over_maps<D: Site, P: Console>(
    alloc: Global,
    command: &Command,
    heading: &Heading,
    site: &mut D,
    console: &mut P,
) -> LogEnding
    requires limits { AreInLimits (told_by command.now) }
    requires reads { creates (told_by command.now).mode ≡ false }
    ensures work { (line : List ℕ) (feed : FeedState)
        → heading.now ≡ record { program = Log; line = line; start_s = 0; now_s = 0 }
        → Ran (told_by command.now) line result (handed (D.state site.old) feed (P.state console.old))
        (handed (D.state site.new) feed (P.state console.new)) }
    ensures site { SiteLeft result (D.state site.old) (D.state site.new) }
{
    let loaded = match load_maps(alloc, site, command) {
        Ok(loaded) => loaded,
        Err(refusal) => return refusal,
    };
    if command.mode.row().removes_map {
        remove_done(command, &loaded, site)
    } else {
        find(alloc, command, heading, &loaded, console)
    }
}

/// Does what a command asks for.
fn run<D: Site, I: Feed, P: Console>(
    alloc: Global,
    words: &Words,
    command: &Command,
    site: &mut D,
    feed: &mut I,
    console: &mut P,
) -> LogEnding
    requires limits { AreInLimits (told_by command.now) }
    requires none { (D.state site.old).is_drafting ≡ false }
    ensures { LogWorked (told_by command.now) words.now result
        (handed (D.state site.old) (I.state feed.old) (P.state console.old))
        (handed (D.state site.new) (I.state feed.new) (P.state console.new)) }
{
    let Ok(heading) = make_heading(alloc, PROGRAM, words, Program::Ddrescuelog) else {
        return LogEnding::NoMemory;
    };
    match command.mode {
        LogMode::Create { listed, rest } => {
            let marks = Marks { listed, rest };
            create_map(alloc, command, &heading, marks, site, feed)
        }
        _ => run_over_maps(alloc, command, &heading, site, console),
    }
}

/// Does what the words ask for. Says how that ended, and whether nothing is to be said of it.
fn work<D: Site, I: Feed, P: Console>(
    alloc: Global,
    words: &Words,
    site: &mut D,
    feed: &mut I,
    console: &mut P,
) -> (LogEnding, bool)
    requires { (D.state site.old).is_drafting ≡ false }
    ensures done { LogDone words.now result.0 result.1
        (handed (D.state site.old) (I.state feed.old) (P.state console.old))
        (handed (D.state site.new) (I.state feed.new) (P.state console.new)) }
    ensures untouched { (fault : Fault) → AreRefused words.now fault
        → (site.new ≡ site.old) × (feed.new ≡ feed.old) }
{
    let command = match read_command(alloc, words) {
        Ok(command) => command,
        Err(CommandError::NoMemory) => return (LogEnding::NoMemory, false),
        Err(CommandError::Usage { fault, quiet }) => return (LogEnding::Usage(fault), quiet),
    };
    let ending = run(alloc, words, &command, site, feed, console);
    (ending, command.options.quiet)
}

/// Reads, compares, prints, makes or removes mapfiles: `[options] mapfile`, with one mode among the options, which are
/// those of `ddrescuelog_words::options`. Unless the answer is what was asked, one message says why, on the console's
/// second channel.
///
/// The refusals come in this order: words that ask for nothing; the mapfile; the other map; the domain map; a position
/// without a place in the output; the list. The mapfile is refused if it is absent or no map, or, if one is to be made,
/// if it is there already. At any time a call on the files may fail, and memory may run out; the list may fail to be
/// read, and a text to be put.
pub fn ddrescuelog<D: Site, I: Feed, P: Console>(
    alloc: Global,
    words: &Words,
    site: &mut D,
    feed: &mut I,
    console: &mut P,
) -> LogEnding
    requires { (D.state site.old).is_drafting ≡ false }
    ensures promise { Ddrescuelog (told words.now result
        (handed (D.state site.old) (I.state feed.old) (P.state console.old))
        (handed (D.state site.new) (I.state feed.new) (P.state console.new))) }

    // Words that are refused touch nothing but standard error.
    ensures untouched { (fault : Fault) → AreRefused words.now fault
        → (site.new ≡ site.old) × (feed.new ≡ feed.old) }
{
    let (ending, quiet) = work(alloc, words, site, feed, console);
    say_ending(console, ending, quiet);
    ending
}
