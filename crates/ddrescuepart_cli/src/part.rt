//! `ddrescuepart`: the top call.
ghost use Rattle.std.specs.Prelude.{◌≡◌, IfOk};
ghost use Rattle.mapfile_text.specs.declared.heading.Program.TheVariants.{Ddrescuelog as Log};
ghost use Rattle.option_words.specs.declared.fault.UsageFault.{UsageFault as Fault};
ghost use Rattle.option_words.specs.Words.{command_line};
ghost use Rattle.program_promise.specs.World.{told};
ghost use Rattle.ddrescuepart_cli.specs.Names.{program_name};
ghost use Rattle.ddrescuepart_words.specs.Command.{AreRefused, IsInLimits, told_by};
ghost use Rattle.ddrescuepart_cli.specs.Ddrescuepart.{Ddrescuepart, PartDone, PartWorked, handed};

use crate::ending::PartEnding;
use crate::message::PROGRAM;
use block_list::tiles::NoMemory;
use ddrescuepart_words::command::{Command, read_command};
use faulty_source::source::Source;
use mapfile_text::heading::{Heading, Program};
use option_words::command_error::CommandError;
use option_words::words::Words;
use partition_domain::domain::{make_room, print_domain};
use partition_domain::find::find_partition;
use program_promise::answer::say_ending;
use program_promise::heading::make_heading;
use rescue_console::console::{Console, ConsoleFault};
use std::alloc::Global;

/// Does what a command asks for. All memory is taken before the input is opened.
fn run<S: Source, P: Console>(
    alloc: Global,
    words: &Words,
    command: &Command,
    source: &mut S,
    console: &mut P,
) -> PartEnding
    requires { IsInLimits (told_by command.now) }
    ensures { PartWorked (told_by command.now) words.now result (handed (S.state source.old) (P.state console.old))
        (handed (S.state source.new) (P.state console.new)) }
{
    let Ok(heading) = make_heading(alloc, PROGRAM, words, Program::Ddrescuelog) else {
        return PartEnding::NoMemory;
    };
    let Ok(tiles) = make_room(alloc) else {
        return PartEnding::NoMemory;
    };
    let Ok(length) = source.open_input(command.infile) else {
        return PartEnding::SourceFault;
    };
    let partition = match find_partition(source, command.partition) {
        Ok(partition) => partition,
        Err(stop) => return PartEnding::stopped(stop),
    };
    match print_domain(console, &heading, tiles, partition, length) {
        Ok(()) => PartEnding::Done,
        Err(ConsoleFault) => PartEnding::ConsoleFault,
    }
}

/// Does what the words ask for. Says how that ended, and whether nothing is to be said of it.
fn work<S: Source, P: Console>(
    alloc: Global,
    words: &Words,
    source: &mut S,
    console: &mut P,
) -> (PartEnding, bool)
    ensures done { PartDone words.now result.0 result.1 (handed (S.state source.old) (P.state console.old))
        (handed (S.state source.new) (P.state console.new)) }
    ensures untouched { (fault : Fault) → AreRefused words.now fault → source.new ≡ source.old }
{
    let command = match read_command(alloc, words) {
        Ok(command) => command,
        Err(CommandError::NoMemory) => return (PartEnding::NoMemory, false),
        Err(CommandError::Usage { fault, quiet }) => return (PartEnding::Usage(fault), quiet),
    };
    let ending = run(alloc, words, &command, source, console);
    (ending, command.quiet)
}

/// Prints the map of one partition of a disk, which a rescue takes as its domain: `[-q] infile k`. Partitions 1 to 4
/// are the entries of the table at sector 0, an extended one included; those from 5 on are given by the chain of
/// records in the first extended partition. Unless the map was printed, one message says why, on the console's second
/// channel.
///
/// The refusals come in this order: words that ask for nothing; records, one by one; a partition that isn't there; a
/// chain that is too long. A record is refused if it isn't read whole, has no signature or, the first alone, is
/// protective. Memory is taken before the input is opened. The input may fail to be opened, or be lost, and the map to
/// be put.
pub fn ddrescuepart<S: Source, P: Console>(
    alloc: Global,
    words: &Words,
    source: &mut S,
    console: &mut P,
) -> PartEnding
    ensures promise { Ddrescuepart (told words.now result (handed (S.state source.old) (P.state console.old))
        (handed (S.state source.new) (P.state console.new))) }

    // Words that are refused touch nothing but standard error.
    ensures untouched { (fault : Fault) → AreRefused words.now fault → source.new ≡ source.old }
{
    let (ending, quiet) = work(alloc, words, source, console);
    say_ending(console, ending, quiet);
    ending
}
