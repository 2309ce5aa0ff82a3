//! What the words of a command line ask for.
ghost use Rattle.std.specs.Prelude.{◌≡◌, All, Ok, Err, IfOk, IfErr, true, map};
ghost use Rattle.option_words.specs.Rows.{meaning_of_row};
ghost use Rattle.option_words.specs.Tables.{is_table};
ghost use Rattle.option_words.specs.Values.{IsWord};
ghost use Rattle.ddrescuepart_words.specs.Command.{AreOptions, IsAsked, IsErrorOf, command_in, option_meanings, partition_by, told_by, with_operands};

use option_words::asked::{Asked, read_asked};
use option_words::command_error::CommandError;
use option_words::fault::UsageFault;
use option_words::given::{QUIET, is_given};
use option_words::option_row;
use option_words::reading::WordReading;
use option_words::row::Row;
use option_words::table::OptionTable;
use option_words::values::{number_by, within_range};
use option_words::words::Words;
use std::alloc::Global;

/// The greatest number of a partition.
const LAST_PARTITION: u64 = 132;

/// The options.
pub static ROWS: [Row; 1] = [option_row!('q', "quiet", Never: "print no message")];

/// What the words of a command line ask for.
#[derive(Clone, Copy, Debug)]
pub struct Command<'a> {
    pub infile: &'a str,
    /// The number of the partition, counted from 1.
    pub partition: u64,
    /// No message is put; by default it is. The map is put all the same.
    pub quiet: bool,
}

/// The number of a partition that a text gives, if it does.
fn read_partition(text: &str) -> Option<u64>
    ensures { result ≡ partition_by text.now }
{
    within_range(number_by(Some(text))?, 1, LAST_PARTITION)
}

/// The infile and the partition of two operands.
fn name_operands<'a>(
    words: &'a Words,
    quiet: bool,
    operands: &[usize],
) -> Result<Command<'a>, UsageFault>
    requires { All (IsWord words.now) operands.now }
    ensures asked { IfOk result (λ c. with_operands words.now quiet operands.now ≡ Ok (told_by c)) }
    ensures refused { IfErr result (λ fault. with_operands words.now quiet operands.now ≡ Err fault) }
{
    let [infile, number] = operands else {
        return Err(UsageFault::Operands {
            given: operands.len(),
        });
    };
    if words.get(*infile).is_empty() {
        return Err(UsageFault::BadValue { word: *infile });
    }
    match read_partition(words.get(*number)) {
        Some(partition) => Ok(Command {
            infile: words.get(*infile),
            partition,
            quiet,
        }),
        None => Err(UsageFault::BadValue { word: *number }),
    }
}

impl<'a> Asked<'a> for Command<'a> {
    ghost options = { option_meanings };

    ghost asks = { λ words items operands c. command_in words items operands ≡ Ok (told_by c) };

    ghost refuses = { λ words items operands fault. command_in words items operands ≡ Err fault };

    fn rows() -> &'static [Row]
        ensures table { is_table result.now ≡ true }
        ensures options { map meaning_of_row result.now ≡ option_meanings }
    {
        &ROWS
    }

    fn of_reading(
        table: &OptionTable,
        words: &'a Words,
        reading: &WordReading,
    ) -> Result<Command<'a>, UsageFault> {
        let quiet = is_given(table, QUIET, &reading.items);
        name_operands(words, quiet, &reading.operands)
    }
}

/// Reads the words of a command line: `[-q] infile k`. The words themselves come first, then the number of operands,
/// then an empty name, then the number of the partition.
pub fn read_command(alloc: Global, words: &Words) -> Result<Command<'_>, CommandError>
    ensures asked { IfOk result (λ c. IsAsked words.now (told_by c)) }
    ensures refused { IfErr result (λ e. IsErrorOf words.now e) }
{
    match read_asked(alloc, words) {
        Ok(asked) => Ok(asked),
        Err(refusal) => Err(refusal.error),
    }
}
