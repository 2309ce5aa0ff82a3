//! The options of `ddrescuelog`, and what they ask for.
ghost use Rattle.std.specs.Prelude.{◌≡◌, ◌<◌, ◌≤◌, option_map};
ghost use Rattle.size_suffixes.specs.Sectors.{IsSector};
ghost use Rattle.option_words.specs.Values.{row_of, set_by};
ghost use Rattle.ddrescuelog_words.specs.Modes.{one_type, two_types, with_map};
ghost use Rattle.ddrescuelog_words.specs.Options.{ends_beyond, no_options, option_rows};

use crate::mode::LogMode;
use block_list::status::Status;
use block_list::types::TypeSet;
use map_algebra::change::TypeChange;
use map_algebra::combine::Op;
use option_words::given::letter_of;
use option_words::option_row;
use option_words::option_values::{OptionValues, SECTOR_SIZE};
use option_words::row::Row;
use option_words::values::{is_name, size_by};

/// The least end that is too large for a map.
const END_LIMIT: u64 = 1 << 63;

/// The letter of the option that names the map of the positions that are examined.
pub(crate) const DOMAIN_MAPFILE: char = 'm';

/// The letter of the option that says how many bytes are examined.
pub(crate) const SIZE: char = 's';

/// The letter of the option that has no effect.
const VERBOSE: char = 'v';

/// The letters of the options of which one says what is done.
pub(crate) static MODES: [char; 13] = [
    'a', 'c', 'C', 'd', 'D', 'l', 'n', 'p', 'P', 't', 'x', 'y', 'z',
];

/// The options. A later one is a row here and an arm in `with_letter`.
pub static ROWS: [Row; 22] = [
    option_row!('a', "change-types", Always(TypeLists): "print the map with types changed"),
    option_row!('b', "block-size", Always(Size): "set the size of a block"),
    option_row!('c', "create-mapfile", Optional(TwoTypes): "make a map from numbers of blocks"),
    option_row!('C', "complete-mapfile", Optional(OneType): "print the map with its gaps filled"),
    option_row!('d', "delete-if-done", Never: "remove the mapfile if everything examined is finished"),
    option_row!('D', "done-status", Never: "exit with status 0 if everything examined is finished"),
    option_row!('f', "force", Never: "let -c replace a file"),
    option_row!('i', "input-position", Always(Size): "begin at this position of the map"),
    option_row!('l', "list-blocks", Always(Types): "print the numbers of the blocks that have one of these types"),
    option_row!('L', "loose-domain", Never: "accept a domain map with gaps"),
    option_row!('m', "domain-mapfile", Always(DomainMap): "examine only what is finished in this map"),
    option_row!('n', "invert-mapfile", Never: "print the map with finished and unfinished swapped"),
    option_row!('o', "output-position", Always(Size): "begin at this position of outfile"),
    option_row!('p', "compare-mapfile", Always(Mapfile): "exit with status 0 if both maps have the same statuses"),
    option_row!('P', "compare-as-domain", Always(Mapfile): "exit with status 0 if the same is finished in both"),
    option_row!('q', "quiet", Never: "print no message"),
    option_row!('s', "size", Always(Size): "examine at most this many bytes"),
    option_row!('t', "show-status", Never: "print how much has each status"),
    option_row!('v', "verbose", Never: "do nothing"),
    option_row!('x', "xor-mapfile", Always(Mapfile): "print what only one of both maps has finished"),
    option_row!('y', "and-mapfile", Always(Mapfile): "print what both maps have finished"),
    option_row!('z', "or-mapfile", Always(Mapfile): "print what at least one map has finished"),
];

/// What the options of a command line ask for.
#[derive(Clone, Copy, Debug, PartialEq, Eq)]
pub struct LogOptions {
    /// The size of a block in bytes; 512 if it isn't given.
    pub block: u64,
    /// Where what is examined begins in the map, in bytes; 0 if it isn't given.
    pub input_position: u64,
    /// Where what is examined begins in the output, in bytes; as in the map if it isn't given.
    pub output_position: Option<u64>,
    /// How many bytes are examined, at most; no limit if it isn't given.
    pub size: Option<u64>,
    /// What is done: the last of what the options say. None if none says it.
    pub mode: Option<LogMode>,
    /// The map of the positions that are examined may have gaps; by default it may not.
    pub loose: bool,
    /// A mapfile to be made may replace a file; by default it may not. No other mode has a use for it.
    pub forced: bool,
    /// No message is put; by default it is. What a mode prints is put all the same.
    pub quiet: bool,
}

impl LogOptions {
    /// Whether the end of what is examined is too large, if the size gives one.
    pub(crate) fn ends_beyond(&self) -> bool
        ensures { result ≡ ends_beyond self.now self.now.size }
    {
        match self.size {
            Some(size) => self.input_position.saturating_add(size) >= END_LIMIT,
            None => false,
        }
    }
}

/// The one type that a value gives, if it does.
fn read_type(value: Option<&str>) -> Option<Status>
    ensures { result ≡ one_type (option_map (λ v. v.now) value.entry) }
{
    let Some(text) = value else {
        return Some(Status::NonTried);
    };
    match text.as_bytes() {
        [symbol] => Status::of_symbol(*symbol),
        _ => None,
    }
}

/// The map to be made by the two types that a value gives, if it does.
fn read_types(value: Option<&str>) -> Option<LogMode>
    ensures { result ≡ two_types (option_map (λ v. v.now) value.entry) }
{
    let (listed, rest) = match value.map(|text| text.as_bytes()) {
        None => (Status::Finished, Status::BadSector),
        Some([listed, rest]) => (Status::of_symbol(*listed)?, Status::of_symbol(*rest)?),
        Some(_) => return None,
    };
    Some(LogMode::Create { listed, rest })
}

/// A mode that works on another map, if a value is the name of one.
fn with_map(mode: LogMode, value: Option<&str>) -> Option<LogMode>
    ensures { result ≡ with_map mode (option_map (λ v. v.now) value.entry) }
{
    if is_name(value) { Some(mode) } else { None }
}

/// Writes the arms of a `match` over the letters: each sets a field. The size of a block is set before, and the name of
/// the map of positions is read apart.
macro_rules! set_by_letter {
    ($options:ident, $letter:ident, $value:ident; $($char:literal => $field:ident = $set:expr;)*) => {
        match $letter {
            SECTOR_SIZE | VERBOSE => Some($options),
            DOMAIN_MAPFILE => if is_name($value) { Some($options) } else { None },
            $($char => {
                $options.$field = $set;
                Some($options)
            })*
            _ => None,
        }
    };
}

/// What the option of a letter sets by its value; nothing if that is a bad one, or if no option has the letter.
fn with_letter(
    mut options: LogOptions,
    block: u64,
    letter: char,
    value: Option<&str>,
) -> Option<LogOptions>
    requires { IsSector block }
    ensures { result ≡ set_by (row_of letter option_rows) block options (option_map (λ v. v.now) value.entry) }
{
    let size = size_by(block, value);
    set_by_letter!(options, letter, value;
        'a' => mode = Some(LogMode::Change(TypeChange::read(value?)?));
        'c' => mode = Some(read_types(value)?);
        'C' => mode = Some(LogMode::Complete(read_type(value)?));
        'd' => mode = Some(LogMode::Test { removes: true });
        'D' => mode = Some(LogMode::Test { removes: false });
        'f' => forced = true;
        'i' => input_position = size?;
        'l' => mode = Some(LogMode::ListBlocks(TypeSet::read(value?)?));
        'L' => loose = true;
        'n' => mode = Some(LogMode::Change(TypeChange::inverting()));
        'o' => output_position = Some(size?);
        'p' => mode = Some(with_map(LogMode::Compare { finished: false }, value)?);
        'P' => mode = Some(with_map(LogMode::Compare { finished: true }, value)?);
        'q' => quiet = true;
        's' => size = Some(size?);
        't' => mode = Some(LogMode::Summarize);
        'x' => mode = Some(with_map(LogMode::Combine(Op::Xor), value)?);
        'y' => mode = Some(with_map(LogMode::Combine(Op::And), value)?);
        'z' => mode = Some(with_map(LogMode::Combine(Op::Or), value)?);
    )
}

impl OptionValues for LogOptions {
    ghost rows = { option_rows };

    ghost start = { no_options };

    fn none(sector: u64) -> LogOptions {
        LogOptions {
            block: sector,
            input_position: 0,
            output_position: None,
            size: None,
            mode: None,
            loose: false,
            forced: false,
            quiet: false,
        }
    }

    fn with_row(self, sector: u64, row: usize, value: Option<&str>) -> Option<LogOptions> {
        match letter_of(&ROWS, row) {
            Some(letter) => with_letter(self, sector, letter, value),
            None => None,
        }
    }
}
