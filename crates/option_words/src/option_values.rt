//! What options set, one after another.
ghost use Rattle.std.specs.Prelude.{◌≡◌, ◌<◌, ◌≤◌, ℕ, List, All, Ok, IfOk, slice_get, map, option_map};
ghost use Rattle.size_suffixes.specs.Sectors.{IsSector};
ghost use Rattle.option_words.specs.Rows.{meaning_of_row};
ghost use Rattle.option_words.specs.Spots.{HasSpot};
ghost use Rattle.option_words.specs.Values.{OptionRow, default_sector, meanings_of, options_in, sector_letter, set_by, set_in_turn, with_item, with_sector};

use crate::given::is_of;
use crate::reading::Item;
use crate::table::OptionTable;
use crate::values::{DEFAULT_SECTOR, read_sector, value_of, value_word};
use crate::words::Words;

/// The letter of the option that gives the size of a sector.
pub const SECTOR_SIZE: char = 'b';

/// What the options of a program set.
pub trait OptionValues: Copy {
    /// The rows of the program's options.
    ghost rows: { List (OptionRow Self) };

    /// What is asked for by the size of a sector if no other option is given.
    ghost start: { ℕ → Self };

    /// What is asked for if no option but the sector's is given.
    fn none(sector: u64) -> Self
        ensures { result ≡ start sector };

    /// What the option of a row sets by the text of its value, if it has one; nothing if that is a bad value, or if
    /// there is no such row. Rows are counted from 0.
    fn with_row(self, sector: u64, row: usize, value: Option<&str>) -> Option<Self>
        requires { IsSector sector }
        ensures { result ≡ set_by (slice_get rows row) sector self (option_map (λ v. v.now) value.entry) };
}

/// The sector after one option, if it is an option of the letter that gives it, or the word of its bad value.
fn set_sector(
    table: &OptionTable,
    words: &Words,
    letter: char,
    sector: u64,
    item: &Item,
) -> Result<u64, usize>
    requires { HasSpot words.now item.now }
    ensures { result ≡ with_sector (map meaning_of_row table.now) letter words.now sector item.now }
{
    if !is_of(table, letter, item) {
        return Ok(sector);
    }
    let Some(text) = value_of(words, item) else {
        return Err(value_word(item));
    };
    read_sector(text).ok_or(value_word(item))
}

/// The sector that the options of a letter give, or the word of the first bad value; 512 if none gives it.
pub fn read_sector_in(
    table: &OptionTable,
    words: &Words,
    letter: char,
    items: &[Item],
) -> Result<u64, usize>
    requires { All (HasSpot words.now) items.now }
    ensures set { result ≡ set_in_turn (with_sector (map meaning_of_row table.now) letter words.now)
        (Ok default_sector) items.now }
    ensures limits { IfOk result IsSector }
{
    let mut sector = DEFAULT_SECTOR;
    for item in items {
        sector = set_sector(table, words, letter, sector, item)?;
    }
    Ok(sector)
}

/// What one option sets, or the word of its bad value.
fn set_item<O: OptionValues>(
    words: &Words,
    options: O,
    sector: u64,
    item: &Item,
) -> Result<O, usize>
    requires spot { HasSpot words.now item.now }
    requires sector { IsSector sector }
    ensures { result ≡ with_item O.rows sector words.now options item.now }
{
    let value = value_of(words, item);
    options
        .with_row(sector, item.row, value)
        .ok_or(value_word(item))
}

/// What options set on top of `none`, in their order, or the word of the first bad value.
pub fn read_settings<O: OptionValues>(
    words: &Words,
    items: &[Item],
    sector: u64,
    none: O,
) -> Result<O, usize>
    requires spots { All (HasSpot words.now) items.now }
    requires sector { IsSector sector }
    ensures { result ≡ set_in_turn (with_item O.rows sector words.now) (Ok none) items.now }
{
    let mut options = none;
    for item in items {
        options = set_item(words, options, sector, item)?;
    }
    Ok(options)
}

/// What all options ask for, or the word of the first bad value. Those that give the sector come first, then all in
/// their order.
pub fn read_options<O: OptionValues>(
    table: &OptionTable,
    words: &Words,
    items: &[Item],
) -> Result<O, usize>
    requires table { map meaning_of_row table.now ≡ meanings_of O.rows }
    requires spots { All (HasSpot words.now) items.now }
    ensures { result ≡ options_in O.rows sector_letter O.start words.now items.now }
{
    let sector = read_sector_in(table, words, SECTOR_SIZE, items)?;
    read_settings(words, items, sector, O::none(sector))
}
