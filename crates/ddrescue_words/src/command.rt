//! What the words of a command line ask for.
ghost use Rattle.std.specs.Prelude.{◌≡◌, All, Ok, Err, is_some, IfOk, IfErr, option_map, true, map};
ghost use Rattle.option_words.specs.Rows.{meaning_of_row};
ghost use Rattle.option_words.specs.Spots.{HasSpot};
ghost use Rattle.option_words.specs.Tables.{is_table};
ghost use Rattle.option_words.specs.Values.{IsWord};
ghost use Rattle.ddrescue_words.specs.Asking.{AreInLimits, AreOptions, IsErrorOf, IsTask, command_with, conflict_in, first_word, goes_with_sample, is_mode_given, later_word, maps_in, mode_task, modes_conflict, sample_command, sample_conflict, sample_task, task_by, task_in, task_with, test_conflict, told_by, wants_mapfile};
ghost use Rattle.ddrescue_words.specs.Options.{option_meanings};

use crate::options::{
    CLUSTER_SIZE, DOMAIN_MAPFILE, FILL_MODE, GENERATE_MODE, Options, ROWS, SAMPLE, TEST_MODE,
};
use block_list::types::TypeSet;
use option_words::asked::{Asked, read_asked};
use option_words::command_error::CommandError;
use option_words::fault::UsageFault;
use option_words::given::{QUIET, is_given, last_of, last_value, letter_of};
use option_words::operands::find_empty;
use option_words::option_values::{OptionValues, read_options};
use option_words::reading::{Item, WordReading};
use option_words::row::Row;
use option_words::table::OptionTable;
use option_words::words::Words;
use run_options::passes::Passes;
use std::alloc::Global;

/// What the words of a command line ask for: the files, and what the options say.
#[derive(Clone, Copy, Debug)]
pub struct Command<'a> {
    pub infile: &'a str,
    pub outfile: &'a str,
    pub mapfile: Option<&'a str>,
    /// The map whose finished positions are rescued and no others, if it is named.
    pub domain_map: Option<&'a str>,
    /// The map whose finished positions can be read and no others, if it is named.
    pub test_map: Option<&'a str>,
    pub options: Options,
}

/// What the words of a command line ask for.
#[derive(Clone, Copy, Debug)]
pub enum Task<'a> {
    Rescue(Command<'a>),
    /// The infile is a pattern, which is to be written over what has one of these statuses in the mapfile, which is
    /// named.
    Fill {
        types: TypeSet,
        command: Command<'a>,
    },
    /// The mapfile, which is named, is to be made from what the outfile holds.
    Generate(Command<'a>),
    /// The rescue of a sample of this size in KiB, without a message if that is asked for.
    Sample {
        kib: u64,
        quiet: bool,
    },
}

/// What the rescue of a sample asks for: the same as the words `-r 1 in out map`.
pub fn sample_command() -> Command<'static>
    ensures told { told_by result ≡ sample_command }
    ensures limits { AreInLimits (told_by result).options }
{
    Command {
        infile: "in",
        outfile: "out",
        mapfile: Some("map"),
        domain_map: None,
        test_map: None,
        options: Options {
            passes: Passes {
                retries: 1,
                ..Passes::all_phases_once()
            },
            ..Options::none(512)
        },
    }
}

/// The files of two operands or three, and the maps that options name.
fn name_files<'a>(
    table: &OptionTable,
    words: &'a Words,
    reading: &WordReading,
    options: Options,
) -> Result<Command<'a>, UsageFault>
    requires table { AreOptions table.now }
    requires spots { All (HasSpot words.now) reading.now.items.items }
    requires operands { All (IsWord words.now) reading.now.operands.items }
    ensures named { IfOk result (λ c. command_with words.now (maps_in words.now reading.now.items.items) options
        reading.now.operands.items ≡ Ok (told_by c)) }
    ensures refused { IfErr result (λ fault. command_with words.now (maps_in words.now reading.now.items.items) options
        reading.now.operands.items ≡ Err fault) }
{
    let (infile, outfile, mapfile) = match reading.operands.as_slice() {
        [infile, outfile] if !options.wants_mapfile() => (*infile, *outfile, None),
        [infile, outfile, mapfile] => (*infile, *outfile, Some(*mapfile)),
        operands => {
            return Err(UsageFault::Operands {
                given: operands.len(),
            });
        }
    };
    Ok(Command {
        infile: words.get(infile),
        outfile: words.get(outfile),
        mapfile: mapfile.map(|n| words.get(n)),
        domain_map: last_value(table, words, DOMAIN_MAPFILE, &reading.items),
        test_map: last_value(table, words, TEST_MODE, &reading.items),
        options,
    })
}

/// The word of the first option of a letter, if it is given.
fn first_word(table: &OptionTable, letter: char, items: &[Item]) -> Option<usize>
    requires { AreOptions table.now }
    ensures { result ≡ first_word letter items.now }
{
    for item in items {
        if letter_of(table.rows(), item.row) == Some(letter) {
            return Some(item.word);
        }
    }
    None
}

/// The later one of two words, if there are two.
fn later_word(first: Option<usize>, second: Option<usize>) -> Option<usize>
    ensures { result ≡ later_word first second }
{
    Some(first?.max(second?))
}

/// The word of the mode that comes second, if two are given.
fn modes_conflict(table: &OptionTable, items: &[Item]) -> Option<usize>
    requires { AreOptions table.now }
    ensures { result ≡ modes_conflict items.now }
{
    later_word(
        first_word(table, FILL_MODE, items),
        first_word(table, GENERATE_MODE, items),
    )
}

/// Whether a mode is given.
fn is_mode_given(table: &OptionTable, items: &[Item]) -> bool
    requires { AreOptions table.now }
    ensures { result ≡ is_mode_given items.now }
{
    is_given(table, FILL_MODE, items) || is_given(table, GENERATE_MODE, items)
}

/// The word of the first test map, if a mode is given, with which it doesn't go.
fn test_conflict(table: &OptionTable, items: &[Item]) -> Option<usize>
    requires { AreOptions table.now }
    ensures { result ≡ test_conflict items.now }
{
    if is_mode_given(table, items) {
        first_word(table, TEST_MODE, items)
    } else {
        None
    }
}

/// Whether an option that was given goes with a sample.
fn goes_with_sample(table: &OptionTable, item: &Item) -> bool
    requires { AreOptions table.now }
    ensures { result ≡ goes_with_sample item.now }
{
    item.row == SAMPLE || letter_of(table.rows(), item.row) == Some(QUIET)
}

/// The word of the first option that doesn't go with a sample.
fn sample_conflict(table: &OptionTable, items: &[Item]) -> Option<usize>
    requires { AreOptions table.now }
    ensures { result ≡ sample_conflict items.now }
{
    for item in items {
        if !goes_with_sample(table, item) {
            return Some(item.word);
        }
    }
    None
}

/// The word of an option that doesn't go with others, if there is one.
fn find_conflict(table: &OptionTable, items: &[Item], sampled: bool) -> Option<usize>
    requires { AreOptions table.now }
    ensures { result ≡ conflict_in sampled items.now }
{
    if let Some(word) = modes_conflict(table, items) {
        return Some(word);
    }
    if let Some(word) = test_conflict(table, items) {
        return Some(word);
    }
    if sampled {
        sample_conflict(table, items)
    } else {
        None
    }
}

/// A sample of this size in KiB, unless there are operands.
fn take_sample<'a>(kib: u64, quiet: bool, operands: &[usize]) -> Result<Task<'a>, UsageFault>
    ensures asked { IfOk result (λ t. sample_task kib quiet operands.now ≡ Ok (task_by t)) }
    ensures refused { IfErr result (λ fault. sample_task kib quiet operands.now ≡ Err fault) }
{
    let given = operands.len();
    if given > 0 {
        return Err(UsageFault::Operands { given });
    }
    Ok(Task::Sample { kib, quiet })
}

/// What files are for, by the mode that options give, if they give one.
fn mode_task(command: Command<'_>) -> Task<'_>
    ensures { task_by result ≡ mode_task (told_by command.entry).options.fill (told_by command.entry).options.generate
        (told_by command.entry) }
{
    match command.options.fill {
        Some(types) => Task::Fill { types, command },
        None if command.options.generate => Task::Generate(command),
        None => Task::Rescue(command),
    }
}

/// What options ask for that go together.
fn name_task<'a>(
    table: &OptionTable,
    words: &'a Words,
    reading: &WordReading,
    options: Options,
) -> Result<Task<'a>, UsageFault>
    requires table { AreOptions table.now }
    requires spots { All (HasSpot words.now) reading.now.items.items }
    requires operands { All (IsWord words.now) reading.now.operands.items }
    ensures asked { IfOk result (λ t. task_with words.now reading.now.items.items options options.sample
        reading.now.operands.items ≡ Ok (task_by t)) }
    ensures refused { IfErr result (λ fault. task_with words.now reading.now.items.items options options.sample
        reading.now.operands.items ≡ Err fault) }
{
    match options.sample {
        Some(kib) => take_sample(kib, options.quiet, &reading.operands),
        None => Ok(mode_task(name_files(table, words, reading, options)?)),
    }
}

impl<'a> Asked<'a> for Task<'a> {
    ghost options = { option_meanings };

    ghost asks = { λ words items operands c. task_in words items operands ≡ Ok (task_by c) };

    ghost refuses = { λ words items operands fault. task_in words items operands ≡ Err fault };

    fn rows() -> &'static [Row]
        ensures table { is_table result.now ≡ true }
        ensures options { map meaning_of_row result.now ≡ option_meanings }
    {
        &ROWS
    }

    fn of_reading(
        table: &OptionTable,
        words: &'a Words,
        reading: &WordReading,
    ) -> Result<Task<'a>, UsageFault> {
        let options: Options = match read_options(table, words, &reading.items) {
            Ok(options) => options,
            Err(word) => return Err(UsageFault::BadValue { word }),
        };
        if options.is_too_large() {
            let word = last_of(table, words, CLUSTER_SIZE, &reading.items).map_or(
                0,
                |item| item.word,
            );
            return Err(UsageFault::BadValue { word });
        }
        if let Some(word) = find_conflict(table, &reading.items, options.sample.is_some()) {
            return Err(UsageFault::Conflict { word });
        }
        let task = name_task(table, words, reading, options)?;
        if let Some(word) = find_empty(words, &reading.operands) {
            return Err(UsageFault::BadValue { word });
        }
        Ok(task)
    }
}

/// Reads the words of a command line: `[options] infile outfile [mapfile]`, of which some modes want the mapfile, or
/// `--sample=KIB`. The words themselves come first, then the values of the options in the order of the words, those of
/// `-b` before all others, then the size of a cluster in bytes. The options that don't go together follow: `-F` with
/// `-G`, `-H` with one of these, and others with a sample. Last come the number of operands and whether one is empty.
pub fn read_command(alloc: Global, words: &Words) -> Result<Task<'_>, CommandError>
    ensures asked { IfOk result (λ t. IsTask words.now t) }
    ensures refused { IfErr result (λ e. IsErrorOf words.now e) }
{
    match read_asked(alloc, words) {
        Ok(asked) => Ok(asked),
        Err(refusal) => Err(refusal.error),
    }
}
