//! What a rescue needs before it opens a file.
ghost use Rattle.std.specs.Prelude.{◌≡◌, ◌⊎◌, not, None, IfOk, IfErr, OnOk, option_map};
ghost use Rattle.rescue_rules.specs.Snapshots.{heading_at};
ghost use Rattle.mapfile_save.specs.MapNames.{names_of};
ghost use Rattle.ddrescue_words.specs.Asking.{told_by};
ghost use Rattle.option_words.specs.Words.{command_line};
ghost use Rattle.task_files.specs.Names.{first_same_with_optional_map, program_name};
ghost use Rattle.task_files.specs.Asked.{names_by};
ghost use Rattle.task_files.specs.Refusals.{NamesRefused};
ghost use Rattle.task_files.specs.declared.ending.Ending.TheVariants.{NoMemory as OutOfMemory};

use crate::ending::Ending;
use block_list::tiles::NoMemory;
use ddrescue_words::command::Command;
use mapfile_save::names::Names;
use mapfile_text::heading::{Heading, Program};
use option_words::words::Words;
use program_promise::heading::make_heading;
use program_promise::operand::{Operand, find_same};
use std::alloc::Global;

/// The program's name, which begins its command line and its messages.
pub const PROGRAM: &str = "ddrescue";

/// The first two files that have the same name, of a command with or without a mapfile.
fn find_same_with_optional_map(
    infile: &str,
    outfile: &str,
    names: &Option<Names>,
) -> Option<(Operand, Operand)>
    ensures { result ≡ first_same_with_optional_map infile.now outfile.now names.now }
{
    match names {
        Some(names) => find_same(infile, outfile, names),
        None => {
            if infile == outfile {
                Some((Operand::Infile, Operand::Outfile))
            } else {
                None
            }
        }
    }
}

/// The names of a mapfile and its draft, if there is one.
pub fn make_names(alloc: Global, mapfile: Option<&str>) -> Result<Option<Names>, NoMemory>
    ensures { IfOk result (λ n. n ≡ option_map (λ m. names_of m.now) mapfile.entry) }
{
    match mapfile {
        Some(mapfile) => Ok(Some(Names::of_map(alloc, mapfile)?)),
        None => Ok(None),
    }
}

/// What a rescue needs before it opens a file.
#[derive(Drop)]
pub struct CheckedCommand<'a> {
    pub command: Command<'a>,
    /// The names of the mapfile and its draft, if there is one.
    pub names: Option<Names>,
    pub heading: Heading,
    /// Whether anything is to be said.
    pub heard: bool,
    /// What all further memory is taken from.
    pub alloc: Global,
}

/// Refuses two files with the same name, and takes the memory that the saves want for names and heading.
pub fn check_command<'a>(
    alloc: Global,
    words: &Words,
    command: Command<'a>,
) -> Result<CheckedCommand<'a>, Ending>
    ensures command { IfOk result (λ p. told_by p.command ≡ told_by command.entry) }
    ensures names { IfOk result (λ p. p.names ≡ names_by (told_by command.entry)) }
    ensures heading { IfOk result (λ p. p.heading ≡ heading_at (command_line program_name words.now) 0 0) }
    ensures heard { IfOk result (λ p. p.heard ≡ not (told_by command.entry).options.quiet) }
    ensures different { OnOk result (first_same_with_optional_map (told_by command.entry).infile
        (told_by command.entry).outfile (names_by (told_by command.entry)) ≡ None) }
    ensures refused { IfErr result (λ e. NamesRefused (told_by command.entry) e ⊎ (e ≡ OutOfMemory)) }
{
    let names = make_names(alloc, command.mapfile)?;
    if let Some((first, second)) = find_same_with_optional_map(
        command.infile,
        command.outfile,
        &names,
    ) {
        return Err(Ending::SameName { first, second });
    }
    let heading = make_heading(alloc, PROGRAM, words, Program::Ddrescue)?;
    Ok(CheckedCommand {
        command,
        names,
        heading,
        heard: !command.options.quiet,
        alloc,
    })
}
