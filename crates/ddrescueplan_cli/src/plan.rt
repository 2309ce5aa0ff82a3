//! `ddrescueplan`: the top call.
ghost use Rattle.std.specs.Prelude.{◌≡◌, ℕ, List};
ghost use Rattle.option_words.specs.declared.fault.UsageFault.{UsageFault as Fault};
ghost use Rattle.ddrescueplan_words.specs.Command.{AreInLimits, AreRefused, told_by};
ghost use Rattle.program_promise.specs.World.{told, handed};
ghost use Rattle.ddrescueplan_cli.specs.Ddrescueplan.{Ddrescueplan, PlanDone, PlanWorked};

use crate::ending::PlanEnding;
use crash_site::site::Site;
use ddrescueplan_words::command::{Command, read_command};
use mapfile_resume::named::load_named;
use option_words::command_error::CommandError;
use option_words::words::Words;
use program_promise::answer::say_ending;
use rescue_console::console::Console;
use rescue_plan::ready::make_rescue;
use rescue_plan::run::put_plan;
use std::alloc::Global;
use std::marker::Brand;

/// Does what a command asks for: loads the test map, and puts the plan.
fn run<D: Site, P: Console>(
    alloc: Global,
    command: &Command<'_>,
    site: &mut D,
    console: &mut P,
) -> PlanEnding
    requires { AreInLimits (told_by command.now) }
    ensures { (words : List (List ℕ)) → PlanWorked (told_by command.now) words result
        (handed (D.state site.old) (P.state console.old)) (handed (D.state site.new) (P.state console.new)) }
{
    let map = match load_named(alloc, site, command.test_map, false) {
        Ok(map) => map,
        Err(fault) => return PlanEnding::refused(fault),
    };
    match make_rescue(alloc, command) {
        Ok(rescue) => {
            let end = put_plan::<P, _, Brand>(alloc, rescue, command.length, map.tiles, console);
            PlanEnding::ended(end)
        }
        Err(_) => PlanEnding::NoMemory,
    }
}

/// Does what the words ask for. Says how that ended, and whether nothing is to be said of it.
fn work<D: Site, P: Console>(
    alloc: Global,
    words: &Words,
    site: &mut D,
    console: &mut P,
) -> (PlanEnding, bool)
    ensures done { PlanDone words.now result.0 result.1 (handed (D.state site.old) (P.state console.old))
        (handed (D.state site.new) (P.state console.new)) }
    ensures untouched { (fault : Fault) → AreRefused words.now fault → site.new ≡ site.old }
{
    let command = match read_command(alloc, words) {
        Ok(command) => command,
        Err(CommandError::NoMemory) => return (PlanEnding::NoMemory, false),
        Err(CommandError::Usage { fault, quiet }) => return (PlanEnding::Usage(fault), quiet),
    };
    let ending = run(alloc, &command, site, console);
    (ending, command.options.rescue.quiet)
}

/// Prints the reads that a rescue would make of an input of a length, of which only that can be read which a test map
/// has finished: `[options] length testmap`. The options are those of a rescue with their letters. There is a line for
/// each read on the console's first channel: where it begins, how many bytes it asks for, and how many it gets, in
/// decimal. Unless the whole plan was put, one message says why, on the second channel.
///
/// The refusals come in this order: words that ask for nothing; a test map that isn't there, or is no map. A read of
/// the test map may fail, a line may fail to be put, and memory may run out.
pub fn ddrescueplan<D: Site, P: Console>(
    alloc: Global,
    words: &Words,
    site: &mut D,
    console: &mut P,
) -> PlanEnding
    ensures promise { Ddrescueplan (told words.now result (handed (D.state site.old) (P.state console.old))
        (handed (D.state site.new) (P.state console.new))) }

    // Words that are refused touch nothing but standard error.
    ensures untouched { (fault : Fault) → AreRefused words.now fault → site.new ≡ site.old }
{
    let (ending, quiet) = work(alloc, words, site, console);
    say_ending(console, ending, quiet);
    ending
}
