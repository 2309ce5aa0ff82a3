//! What the words of a command line ask for.
ghost use Rattle.std.specs.Prelude.{◌≡◌, All, Ok, Err, IfOk, IfErr, true, map};
ghost use Rattle.option_words.specs.Rows.{meaning_of_row};
ghost use Rattle.option_words.specs.Spots.{HasSpot};
ghost use Rattle.option_words.specs.Tables.{is_table};
ghost use Rattle.option_words.specs.Values.{IsWord};
ghost use Rattle.ddrescueverify_words.specs.Command.{AreOptions, IsAsked, IsErrorOf, command_in, command_with, told_by};
ghost use Rattle.ddrescueverify_words.specs.Options.{option_meanings};

use crate::options::{ROWS, VerifyOptions};
use option_words::asked::{Asked, read_asked};
use option_words::command_error::CommandError;
use option_words::fault::UsageFault;
use option_words::operands::find_empty;
use option_words::option_values::read_options;
use option_words::reading::WordReading;
use option_words::row::Row;
use option_words::table::OptionTable;
use option_words::words::Words;
use std::alloc::Global;

/// What the words of a command line ask for: the files, and what the options say.
#[derive(Clone, Copy, Debug)]
pub struct Command<'a> {
    pub infile: &'a str,
    pub outfile: &'a str,
    pub mapfile: &'a str,
    pub options: VerifyOptions,
}

/// The files of three operands.
fn name_files<'a>(
    words: &'a Words,
    reading: &WordReading,
    options: VerifyOptions,
) -> Result<Command<'a>, UsageFault>
    requires operands { All (IsWord words.now) reading.now.operands.items }
    ensures named { IfOk result (λ c. command_with words.now options reading.now.operands.items ≡ Ok (told_by c)) }
    ensures refused { IfErr result (λ fault. command_with words.now options reading.now.operands.items ≡ Err fault) }
{
    match reading.operands.as_slice() {
        [infile, outfile, mapfile] => Ok(Command {
            infile: words.get(*infile),
            outfile: words.get(*outfile),
            mapfile: words.get(*mapfile),
            options,
        }),
        operands => Err(UsageFault::Operands {
            given: operands.len(),
        }),
    }
}

impl<'a> Asked<'a> for Command<'a> {
    ghost options = { option_meanings };

    ghost asks = { λ words items operands c. command_in words items operands ≡ Ok (told_by c) };

    ghost refuses = { λ words items operands fault. command_in words items operands ≡ Err fault };

    fn rows() -> &'static [Row]
        ensures table { is_table result.now ≡ true }
        ensures options { map meaning_of_row result.now ≡ option_meanings }
    {
        &ROWS
    }

    fn of_reading(
        table: &OptionTable,
        words: &'a Words,
        reading: &WordReading,
    ) -> Result<Command<'a>, UsageFault> {
        let options: VerifyOptions = match read_options(table, words, &reading.items) {
            Ok(options) => options,
            Err(word) => return Err(UsageFault::BadValue { word }),
        };
        let command = name_files(words, reading, options)?;
        if let Some(word) = find_empty(words, &reading.operands) {
            return Err(UsageFault::BadValue { word });
        }
        Ok(command)
    }
}

/// Reads the words of a command line: `[options] infile outfile mapfile`. The words themselves come first, then the
/// values of the options in the order of the words, those of `-b` before all others, then the number of operands and
/// whether one is empty.
pub fn read_command(alloc: Global, words: &Words) -> Result<Command<'_>, CommandError>
    ensures asked { IfOk result (λ c. IsAsked words.now (told_by c)) }
    ensures refused { IfErr result (λ e. IsErrorOf words.now e) }
{
    match read_asked(alloc, words) {
        Ok(asked) => Ok(asked),
        Err(refusal) => Err(refusal.error),
    }
}
