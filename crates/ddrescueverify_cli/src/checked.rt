//! What a comparison needs before it opens a file.
ghost use Rattle.std.specs.Prelude.{◌≡◌, ◌⊎◌, None, IfOk, IfErr, OnOk};
ghost use Rattle.option_words.specs.Words.{command_line};
ghost use Rattle.mapfile_save.specs.MapNames.{names_of};
ghost use Rattle.ddrescueverify_words.specs.Command.{told_by};
ghost use Rattle.ddrescueverify_cli.specs.declared.ending.VerifyEnding.TheVariants.{NoMemory as OutOfMemory};
ghost use Rattle.ddrescueverify_cli.specs.Asked.{heading_of};
ghost use Rattle.program_promise.specs.Operands.{first_same};
ghost use Rattle.ddrescueverify_cli.specs.Names.{program_name};
ghost use Rattle.ddrescueverify_cli.specs.Refusals.{NamesRefused};

use crate::ending::VerifyEnding;
use ddrescueverify_words::command::Command;
use mapfile_save::names::Names;
use mapfile_text::heading::{Heading, Program};
use option_words::words::Words;
use program_promise::heading::make_heading;
use program_promise::operand::find_same;
use std::alloc::Global;

/// The program's name, which begins its command line and its messages.
pub(crate) const PROGRAM: &str = "ddrescueverify";

/// What a comparison needs before it opens a file.
#[derive(Drop)]
pub(crate) struct CheckedCommand<'a> {
    pub command: Command<'a>,
    /// The names of the mapfile and its draft.
    pub names: Names,
    pub heading: Heading,
}

/// Refuses two files with the same name, and takes the memory that the save wants for names and heading.
pub(crate) fn check_command<'a>(
    alloc: Global,
    words: &Words,
    command: Command<'a>,
) -> Result<CheckedCommand<'a>, VerifyEnding>
    ensures command { IfOk result (λ p. told_by p.command ≡ told_by command.entry) }
    ensures names { IfOk result (λ p. p.names ≡ names_of (told_by command.entry).mapfile) }
    ensures heading { IfOk result (λ p. p.heading ≡ heading_of (command_line program_name words.now)) }
    ensures different { OnOk result (first_same (told_by command.entry).infile (told_by command.entry).outfile
        (names_of (told_by command.entry).mapfile) ≡ None) }
    ensures refused { IfErr result (λ e. NamesRefused (told_by command.entry) e ⊎ (e ≡ OutOfMemory)) }
{
    let names = Names::of_map(alloc, command.mapfile)?;
    if let Some((first, second)) = find_same(command.infile, command.outfile, &names) {
        return Err(VerifyEnding::SameName { first, second });
    }
    let heading = make_heading(alloc, PROGRAM, words, Program::Ddrescuelog)?;
    Ok(CheckedCommand {
        command,
        names,
        heading,
    })
}
