//! What the words of a command line ask for.
ghost use Rattle.std.specs.Prelude.{◌≡◌, ◌<◌, ◌≤◌, All, Ok, Err, IfOk, IfErr, true, map};
ghost use Rattle.size_suffixes.specs.Sectors.{IsSector};
ghost use Rattle.option_words.specs.Rows.{meaning_of_row};
ghost use Rattle.option_words.specs.Spots.{HasSpot};
ghost use Rattle.option_words.specs.Tables.{is_table};
ghost use Rattle.option_words.specs.Values.{IsWord};
ghost use Rattle.ddrescue_words.specs.Asking.{is_too_large};
ghost use Rattle.ddrescueplan_words.specs.Command.{AreOptions, IsAsked, IsErrorOf, command_in, command_with, length_by, told_by};
ghost use Rattle.ddrescueplan_words.specs.Options.{option_meanings};

use crate::options::{CLUSTER_SIZE, PlanOptions, ROWS};
use ddrescue_words::options::{DEFAULT_CLUSTER, Options};
use option_words::asked::{Asked, read_asked};
use option_words::command_error::CommandError;
use option_words::fault::UsageFault;
use option_words::given::last_of;
use option_words::option_values::read_options;
use option_words::reading::WordReading;
use option_words::row::Row;
use option_words::table::OptionTable;
use option_words::values::{size_by, within_range};
use option_words::words::Words;
use size_suffixes::sectors::LARGEST_CLUSTER;
use std::alloc::Global;

/// The greatest length in bytes: 1 TiB.
const MOST_LENGTH: u64 = 1 << 40;

/// What the words of a command line ask for: the length of the input, the map of what can be read of it, and what the
/// options say.
#[derive(Clone, Copy, Debug)]
pub struct Command<'a> {
    /// In bytes, at most 1,099,511,627,776.
    pub length: u64,
    pub test_map: &'a str,
    pub options: PlanOptions,
}

/// Whether a cluster is too large.
fn is_too_large(options: &Options) -> bool
    requires { 0 < options.now.sector }
    ensures { result ≡ is_too_large options.now }
{
    let sectors = match options.cluster_sectors {
        Some(sectors) => sectors,
        None => (DEFAULT_CLUSTER / options.sector).max(1),
    };
    sectors.saturating_mul(options.sector) > LARGEST_CLUSTER
}

/// The length that a text gives, if it does.
fn read_length(sector: u64, text: &str) -> Option<u64>
    requires { IsSector sector }
    ensures { result ≡ length_by sector text.now }
{
    within_range(size_by(sector, Some(text))?, 0, MOST_LENGTH)
}

/// The length and the test map of two operands.
fn name_operands<'a>(
    words: &'a Words,
    options: PlanOptions,
    operands: &[usize],
) -> Result<Command<'a>, UsageFault>
    requires sector { IsSector options.rescue.sector }
    requires operands { All (IsWord words.now) operands.now }
    ensures named { IfOk result (λ c. command_with words.now options operands.now ≡ Ok (told_by c)) }
    ensures refused { IfErr result (λ fault. command_with words.now options operands.now ≡ Err fault) }
{
    let [length, test_map] = operands else {
        return Err(UsageFault::Operands {
            given: operands.len(),
        });
    };
    let Some(bytes) = read_length(options.rescue.sector, words.get(*length)) else {
        return Err(UsageFault::BadValue { word: *length });
    };
    if words.get(*test_map).is_empty() {
        return Err(UsageFault::BadValue { word: *test_map });
    }
    Ok(Command {
        length: bytes,
        test_map: words.get(*test_map),
        options,
    })
}

impl<'a> Asked<'a> for Command<'a> {
    ghost options = { option_meanings };

    ghost asks = { λ words items operands c. command_in words items operands ≡ Ok (told_by c) };

    ghost refuses = { λ words items operands fault. command_in words items operands ≡ Err fault };

    fn rows() -> &'static [Row]
        ensures table { is_table result.now ≡ true }
        ensures options { map meaning_of_row result.now ≡ option_meanings }
    {
        &ROWS
    }

    fn of_reading(
        table: &OptionTable,
        words: &'a Words,
        reading: &WordReading,
    ) -> Result<Command<'a>, UsageFault> {
        let options: PlanOptions = match read_options(table, words, &reading.items) {
            Ok(options) => options,
            Err(word) => return Err(UsageFault::BadValue { word }),
        };
        if is_too_large(&options.rescue) {
            let word = last_of(table, words, CLUSTER_SIZE, &reading.items).map_or(
                0,
                |item| item.word,
            );
            return Err(UsageFault::BadValue { word });
        }
        name_operands(words, options, &reading.operands)
    }
}

/// Reads the words of a command line: `[options] length testmap`. The words themselves come first, then the values of
/// the options in the order of the words, those of `-b` before all others, then the size of a cluster in bytes. Then
/// come the number of operands, the length, in which `s` is a sector, and an empty name.
pub fn read_command(alloc: Global, words: &Words) -> Result<Command<'_>, CommandError>
    ensures asked { IfOk result (λ c. IsAsked words.now (told_by c)) }
    ensures refused { IfErr result (λ e. IsErrorOf words.now e) }
{
    match read_asked(alloc, words) {
        Ok(asked) => Ok(asked),
        Err(refusal) => Err(refusal.error),
    }
}
