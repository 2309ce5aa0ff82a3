//! Which options are given.
ghost use Rattle.std.specs.Prelude.{◌≡◌, All, IfSome, map, slice_get, option_map};
ghost use Rattle.option_words.specs.Rows.{meaning_of_row};
ghost use Rattle.option_words.specs.Spots.{HasSpot};
ghost use Rattle.option_words.specs.Values.{is_given, is_of, last_of, last_value, letter_meant};

use crate::reading::Item;
use crate::row::Row;
use crate::table::OptionTable;
use crate::values::value_of;
use crate::words::Words;

/// The letter of the option that asks that no message be put.
pub const QUIET: char = 'q';

/// The letter of a row, counted from 0, if there is such a row and it has one.
pub fn letter_of(rows: &[Row], row: usize) -> Option<char>
    ensures { result ≡ letter_meant (slice_get (map meaning_of_row rows.now) row) }
{
    match rows.get(row) {
        Some(row) => row.short,
        None => None,
    }
}

/// Whether what was given is the option of a letter.
pub(crate) fn is_of(table: &OptionTable, letter: char, item: &Item) -> bool
    ensures { result ≡ is_of (map meaning_of_row table.now) letter item.now }
{
    letter_of(table.rows(), item.row) == Some(letter)
}

/// Whether the option of a letter is given.
pub fn is_given(table: &OptionTable, letter: char, items: &[Item]) -> bool
    ensures { result ≡ is_given (map meaning_of_row table.now) letter items.now }
{
    items.iter().any(|item| is_of(table, letter, item))
}

/// The last option of a letter.
pub fn last_of(table: &OptionTable, words: &Words, letter: char, items: &[Item]) -> Option<Item>
    requires { All (HasSpot words.now) items.now }
    ensures last { result ≡ last_of (map meaning_of_row table.now) letter items.now }
    ensures spot { IfSome result (HasSpot words.now) }
{
    let mut last = None;
    for item in items {
        if is_of(table, letter, item) {
            last = Some(*item);
        }
    }
    last
}

/// The text of the value of the last option of a letter.
pub fn last_value<'a>(
    table: &OptionTable,
    words: &'a Words,
    letter: char,
    items: &[Item],
) -> Option<&'a str>
    requires { All (HasSpot words.now) items.now }
    ensures { option_map (λ t. t.now) result ≡ last_value (map meaning_of_row table.now) words.now letter items.now }
{
    let item = last_of(table, words, letter, items)?;
    value_of(words, &item)
}
