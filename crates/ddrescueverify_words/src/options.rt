//! The options of `ddrescueverify`, and what they ask for.
ghost use Rattle.std.specs.Prelude.{◌≡◌, ◌<◌, ◌≤◌, option_map};
ghost use Rattle.size_suffixes.specs.Sectors.{IsSector};
ghost use Rattle.option_words.specs.Values.{row_of, set_by};
ghost use Rattle.ddrescueverify_words.specs.Options.{no_options, option_rows};

use option_words::given::letter_of;
use option_words::option_row;
use option_words::option_values::{OptionValues, SECTOR_SIZE};
use option_words::row::Row;
use option_words::values::size_by;

/// The options. A later one is a row here and an arm in `with_letter`.
pub static ROWS: [Row; 5] = [
    option_row!('b', "sector-size", Always(Size): "set the size of a sector"),
    option_row!('i', "input-position", Always(Size): "begin at this position of infile"),
    option_row!('o', "output-position", Always(Size): "begin at this position of outfile"),
    option_row!('q', "quiet", Never: "print nothing"),
    option_row!('s', "size", Always(Size): "compare at most this many bytes"),
];

/// What the options of a command line ask for.
#[derive(Clone, Copy, Debug, PartialEq, Eq)]
pub struct VerifyOptions {
    /// The size of a sector in bytes; 512 if it isn't given.
    pub sector: u64,
    /// Where the comparison begins in the infile, in bytes; 0 if it isn't given.
    pub input_position: u64,
    /// Where the comparison begins in the outfile, in bytes; as in the infile if it isn't given.
    pub output_position: Option<u64>,
    /// How many bytes are compared, at most; no limit if it isn't given.
    pub size: Option<u64>,
    /// Nothing is put on the console; by default the numbers and messages are.
    pub quiet: bool,
}

/// Writes the arms of a `match` over the letters: each sets a field. The size of a sector is set before.
macro_rules! set_by_letter {
    ($options:ident, $letter:ident; $($char:literal => $field:ident = $set:expr;)*) => {
        match $letter {
            SECTOR_SIZE => Some($options),
            $($char => {
                $options.$field = $set;
                Some($options)
            })*
            _ => None,
        }
    };
}

/// What the option of a letter sets by its value; nothing if that is a bad one, or if no option has the letter.
fn with_letter(
    mut options: VerifyOptions,
    sector: u64,
    letter: char,
    value: Option<&str>,
) -> Option<VerifyOptions>
    requires { IsSector sector }
    ensures { result ≡ set_by (row_of letter option_rows) sector options (option_map (λ v. v.now) value.entry) }
{
    let size = size_by(sector, value);
    set_by_letter!(options, letter;
        'i' => input_position = size?;
        'o' => output_position = Some(size?);
        'q' => quiet = true;
        's' => size = Some(size?);
    )
}

impl OptionValues for VerifyOptions {
    ghost rows = { option_rows };

    ghost start = { no_options };

    fn none(sector: u64) -> VerifyOptions {
        VerifyOptions {
            sector,
            input_position: 0,
            output_position: None,
            size: None,
            quiet: false,
        }
    }

    fn with_row(self, sector: u64, row: usize, value: Option<&str>) -> Option<VerifyOptions> {
        match letter_of(&ROWS, row) {
            Some(letter) => with_letter(self, sector, letter, value),
            None => None,
        }
    }
}
