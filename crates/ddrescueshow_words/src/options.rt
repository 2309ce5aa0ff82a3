//! The options of `ddrescueshow`, and what they ask for.
ghost use Rattle.std.specs.Prelude.{◌≡◌, ◌<◌, ◌≤◌, Some, option_map};
ghost use Rattle.size_suffixes.specs.Sectors.{IsSector};
ghost use Rattle.option_words.specs.Values.{row_of, set_by};
ghost use Rattle.ddrescueshow_words.specs.Options.{color_row, coloring_by, count_by, lettered_rows, no_options, option_rows, rows_row, width_row};

use option_words::given::letter_of;
use option_words::option_row;
use option_words::option_values::{OptionValues, SECTOR_SIZE};
use option_words::row::Row;
use option_words::values::{is_name, number_by, size_by, within_range};

/// The letter of the option that names the domain map.
pub(crate) const DOMAIN_MAPFILE: char = 'm';

/// The row of the option that says when the picture is in color, counted from 0. It has no letter, nor have the
/// following ones.
const COLOR: usize = 6;

/// The row of the option that gives the most rows of cells.
const ROW_LIMIT: usize = 7;

/// The row of the option that asks for SVG.
const SVG: usize = 8;

/// The row of the option that gives the cells of a row.
const WIDTH: usize = 9;

/// The most rows, and the most cells in a row.
const MOST_CELLS: u64 = 1000;

/// The options. A later one with a letter is a row here, before the last four, and an arm in `with_letter`.
pub static ROWS: [Row; 10] = [
    option_row!('b', "sector-size", Always(Size): "set the size of a sector"),
    option_row!('i', "input-position", Always(Size): "begin the picture at this position of the map"),
    option_row!('L', "loose-domain", Never: "accept a domain map with gaps"),
    option_row!('m', "domain-mapfile", Always(DomainMap): "show only what is finished in this map"),
    option_row!('q', "quiet", Never: "print no message"),
    option_row!('s', "size", Always(Size): "show at most this many bytes"),
    option_row!("color", Always(Coloring): "draw in color"),
    option_row!("rows", Always(Cells): "draw at most this many rows"),
    option_row!("svg", Never: "print the picture as SVG"),
    option_row!("width", Always(Cells): "draw this many cells in a row"),
];

/// The option that goes alone, to follow a rescue. So it is no row of the table.
pub static PROGRESS: Row =
    option_row!("progress", Never: "follow a rescue whose lines come on standard input");

/// When a picture is in color.
#[derive(Clone, Copy, Debug, PartialEq, Eq)]
pub enum Coloring {
    /// If standard output is a terminal.
    Auto,
    Always,
    Never,
}

/// What the options of a command line ask for.
#[derive(Clone, Copy, Debug, PartialEq, Eq)]
pub struct ShowOptions {
    /// The size of a sector in bytes; 512 if it isn't given.
    pub sector: u64,
    /// Where the picture begins in the map, in bytes; 0 if it isn't given.
    pub input_position: u64,
    /// How many bytes are shown, at most; no limit if it isn't given.
    pub size: Option<u64>,
    /// The cells of a row; 64 if it isn't given.
    pub width: u64,
    /// The most rows of cells; 16 if it isn't given.
    pub rows: u64,
    /// When the picture is in color; if standard output is a terminal, if it isn't given.
    pub coloring: Coloring,
    /// The picture is SVG; by default it is text.
    pub svg: bool,
    /// The domain map may have gaps; by default it may not.
    pub loose: bool,
    /// No message is put; by default it is. The picture is put all the same.
    pub quiet: bool,
}

/// The number of cells or rows that a value gives, if it does.
fn read_count(value: Option<&str>) -> Option<u64>
    ensures { result ≡ count_by (option_map (λ v. v.now) value.entry) }
{
    within_range(number_by(value)?, 1, MOST_CELLS)
}

/// When a picture is in color by a value, if the value says so.
fn read_coloring(value: Option<&str>) -> Option<Coloring>
    ensures { result ≡ coloring_by (option_map (λ v. v.now) value.entry) }
{
    let value = value?;
    if value == "auto" {
        Some(Coloring::Auto)
    } else if value == "always" {
        Some(Coloring::Always)
    } else if value == "never" {
        Some(Coloring::Never)
    } else {
        None
    }
}

/// What the option of the color sets by its value; nothing if that is a bad one.
fn with_color(options: ShowOptions, sector: u64, value: Option<&str>) -> Option<ShowOptions>
    ensures { result ≡ set_by (Some color_row) sector options (option_map (λ v. v.now) value.entry) }
{
    let coloring = read_coloring(value)?;
    Some(ShowOptions {
        coloring,
        ..options
    })
}

/// What the option of the rows sets by its value; nothing if that is a bad one.
fn with_rows(options: ShowOptions, sector: u64, value: Option<&str>) -> Option<ShowOptions>
    ensures { result ≡ set_by (Some rows_row) sector options (option_map (λ v. v.now) value.entry) }
{
    let rows = read_count(value)?;
    Some(ShowOptions { rows, ..options })
}

/// What the option of the width sets by its value; nothing if that is a bad one.
fn with_width(options: ShowOptions, sector: u64, value: Option<&str>) -> Option<ShowOptions>
    ensures { result ≡ set_by (Some width_row) sector options (option_map (λ v. v.now) value.entry) }
{
    let width = read_count(value)?;
    Some(ShowOptions { width, ..options })
}

/// Writes the arms of a `match` over the letters: each sets a field. The size of a sector is set before, and the name
/// of the domain map is read apart.
macro_rules! set_by_letter {
    ($options:ident, $letter:ident, $value:ident; $($char:literal => $field:ident = $set:expr;)*) => {
        match $letter {
            SECTOR_SIZE => Some($options),
            DOMAIN_MAPFILE => if is_name($value) { Some($options) } else { None },
            $($char => {
                $options.$field = $set;
                Some($options)
            })*
            _ => None,
        }
    };
}

/// What the option of a letter sets by its value; nothing if that is a bad one, or if no option has the letter.
fn with_letter(
    mut options: ShowOptions,
    sector: u64,
    letter: char,
    value: Option<&str>,
) -> Option<ShowOptions>
    requires { IsSector sector }
    ensures { result ≡ set_by (row_of letter lettered_rows) sector options (option_map (λ v. v.now) value.entry) }
{
    let size = size_by(sector, value);
    set_by_letter!(options, letter, value;
        'i' => input_position = size?;
        'L' => loose = true;
        'q' => quiet = true;
        's' => size = Some(size?);
    )
}

impl OptionValues for ShowOptions {
    ghost rows = { option_rows };

    ghost start = { no_options };

    fn none(sector: u64) -> ShowOptions {
        ShowOptions {
            sector,
            input_position: 0,
            size: None,
            width: 64,
            rows: 16,
            coloring: Coloring::Auto,
            svg: false,
            loose: false,
            quiet: false,
        }
    }

    fn with_row(self, sector: u64, row: usize, value: Option<&str>) -> Option<ShowOptions> {
        match row {
            COLOR => with_color(self, sector, value),
            ROW_LIMIT => with_rows(self, sector, value),
            SVG => Some(ShowOptions { svg: true, ..self }),
            WIDTH => with_width(self, sector, value),
            _ => match letter_of(&ROWS, row) {
                Some(letter) => with_letter(self, sector, letter, value),
                None => None,
            },
        }
    }
}
