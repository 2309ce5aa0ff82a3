//! What the words of a command line ask for.
ghost use Rattle.std.specs.Prelude.{◌≡◌, All, Ok, Err, IfOk, IfErr, option_map, true, map};
ghost use Rattle.option_words.specs.Rows.{meaning_of_row};
ghost use Rattle.option_words.specs.Spots.{HasSpot};
ghost use Rattle.option_words.specs.Tables.{is_table};
ghost use Rattle.option_words.specs.Values.{IsWord};
ghost use Rattle.ddrescuelog_words.specs.Command.{AreOptions, IsAsked, IsErrorOf, command_in, is_too_long, modes_given, other_in, size_word, told_by, with_mode, with_operand};
ghost use Rattle.ddrescuelog_words.specs.Options.{option_meanings};

use crate::mode::LogMode;
use crate::options::{DOMAIN_MAPFILE, LogOptions, MODES, ROWS, SIZE};
use option_words::asked::{Asked, read_asked};
use option_words::command_error::CommandError;
use option_words::fault::UsageFault;
use option_words::given::{is_given, last_of, last_value};
use option_words::operands::find_empty;
use option_words::option_values::read_options;
use option_words::reading::{Item, WordReading};
use option_words::row::Row;
use option_words::table::OptionTable;
use option_words::values::value_word;
use option_words::words::Words;
use std::alloc::Global;

/// What the words of a command line ask for: the files, what is done, and what the options say.
#[derive(Clone, Copy, Debug)]
pub struct Command<'a> {
    pub mapfile: &'a str,
    pub mode: LogMode,
    /// The map that the mode works on too, if it does.
    pub other: Option<&'a str>,
    /// The map whose finished positions are examined, and no others, if it is named.
    pub domain_map: Option<&'a str>,
    pub options: LogOptions,
}

impl Command<'_> {
    /// Whether a map to be made is too long.
    fn is_too_long(&self) -> bool
        ensures { result ≡ is_too_long (told_by self.now) }
    {
        self.mode.row().creates && self.options.ends_beyond()
    }
}

/// How many modes are given.
fn count_modes(table: &OptionTable, items: &[Item]) -> usize
    requires { AreOptions table.now }
    ensures { result ≡ modes_given items.now }
{
    MODES
        .iter()
        .filter(|letter| is_given(table, **letter, items))
        .count()
}

/// The name of the map that a mode works on too, if it does.
fn name_other<'a>(
    table: &OptionTable,
    words: &'a Words,
    items: &[Item],
    mode: LogMode,
) -> Option<&'a str>
    requires table { AreOptions table.now }
    requires spots { All (HasSpot words.now) items.now }
    ensures { option_map (λ t. t.now) result ≡ other_in words.now items.now mode }
{
    last_value(table, words, mode.row().other_letter?, items)
}

/// The files of one operand, and the maps that options name.
fn name_files<'a>(
    table: &OptionTable,
    words: &'a Words,
    reading: &WordReading,
    options: LogOptions,
    mode: LogMode,
) -> Result<Command<'a>, UsageFault>
    requires table { AreOptions table.now }
    requires spots { All (HasSpot words.now) reading.now.items.items }
    requires operands { All (IsWord words.now) reading.now.operands.items }
    ensures named { IfOk result (λ c. with_operand words.now reading.now.items.items options mode
        reading.now.operands.items ≡ Ok (told_by c)) }
    ensures refused { IfErr result (λ fault. with_operand words.now reading.now.items.items options mode
        reading.now.operands.items ≡ Err fault) }
{
    match reading.operands.as_slice() {
        [mapfile] => Ok(Command {
            mapfile: words.get(*mapfile),
            mode,
            other: name_other(table, words, &reading.items, mode),
            domain_map: last_value(table, words, DOMAIN_MAPFILE, &reading.items),
            options,
        }),
        operands => Err(UsageFault::Operands {
            given: operands.len(),
        }),
    }
}

/// The one mode that is given, and the files.
fn name_mode<'a>(
    table: &OptionTable,
    words: &'a Words,
    reading: &WordReading,
    options: LogOptions,
) -> Result<Command<'a>, UsageFault>
    requires table { AreOptions table.now }
    requires spots { All (HasSpot words.now) reading.now.items.items }
    requires operands { All (IsWord words.now) reading.now.operands.items }
    ensures named { IfOk result (λ c. with_mode words.now reading.now.items.items options options.mode
        reading.now.operands.items ≡ Ok (told_by c)) }
    ensures refused { IfErr result (λ fault. with_mode words.now reading.now.items.items options options.mode
        reading.now.operands.items ≡ Err fault) }
{
    let given = count_modes(table, &reading.items);
    match options.mode {
        Some(mode) if given == 1 => name_files(table, words, reading, options, mode),
        _ => Err(UsageFault::Modes { given }),
    }
}

/// The word in which the last value of the size begins.
fn find_size_word(table: &OptionTable, words: &Words, items: &[Item]) -> usize
    requires table { AreOptions table.now }
    requires spots { All (HasSpot words.now) items.now }
    ensures { result ≡ size_word items.now }
{
    match last_of(table, words, SIZE, items) {
        Some(item) => value_word(&item),
        None => 0,
    }
}

impl<'a> Asked<'a> for Command<'a> {
    ghost options = { option_meanings };

    ghost asks = { λ words items operands c. command_in words items operands ≡ Ok (told_by c) };

    ghost refuses = { λ words items operands fault. command_in words items operands ≡ Err fault };

    fn rows() -> &'static [Row]
        ensures table { is_table result.now ≡ true }
        ensures options { map meaning_of_row result.now ≡ option_meanings }
    {
        &ROWS
    }

    fn of_reading(
        table: &OptionTable,
        words: &'a Words,
        reading: &WordReading,
    ) -> Result<Command<'a>, UsageFault> {
        let options: LogOptions = match read_options(table, words, &reading.items) {
            Ok(options) => options,
            Err(word) => return Err(UsageFault::BadValue { word }),
        };
        let command = name_mode(table, words, reading, options)?;
        if let Some(word) = find_empty(words, &reading.operands) {
            return Err(UsageFault::BadValue { word });
        }
        if command.is_too_long() {
            let word = find_size_word(table, words, &reading.items);
            return Err(UsageFault::BadValue { word });
        }
        Ok(command)
    }
}

/// Reads the words of a command line: `[options] mapfile`. The words themselves come first, then the values of the
/// options in the order of the words, those of `-b` before all others. Then come the number of modes, that of operands
/// and whether one is empty, and the end of a map to be made.
pub fn read_command(alloc: Global, words: &Words) -> Result<Command<'_>, CommandError>
    ensures asked { IfOk result (λ c. IsAsked words.now (told_by c)) }
    ensures refused { IfErr result (λ e. IsErrorOf words.now e) }
{
    match read_asked(alloc, words) {
        Ok(asked) => Ok(asked),
        Err(refusal) => Err(refusal.error),
    }
}
