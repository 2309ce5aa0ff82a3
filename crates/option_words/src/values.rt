//! The values of options.
ghost use Rattle.std.specs.Prelude.{◌≡◌, ◌<◌, ◌≤◌, option_map};
ghost use Rattle.size_suffixes.specs.Sectors.{IsSector};
ghost use Rattle.option_words.specs.Spots.{HasSpot};
ghost use Rattle.option_words.specs.Values.{is_name, number_by, sector_of, size_by, value_of, within_range, word_at};

use crate::reading::Item;
use crate::words::Words;
use size_suffixes::number::read_number;
use size_suffixes::sectors::LARGEST_SECTOR;
use size_suffixes::size::read_size;

/// The size of a sector in bytes, if no option gives it.
pub(crate) const DEFAULT_SECTOR: u64 = 512;

/// The text of an option's value, if it has one; an empty text is one.
pub fn value_of<'a>(words: &'a Words, item: &Item) -> Option<&'a str>
    requires { HasSpot words.now item.now }
    ensures { option_map (λ v. v.now) result ≡ value_of words.now item.now.value }
{
    match item.value {
        Some(spot) => Some(words.text(spot)),
        None => None,
    }
}

/// The word in which an option's value begins; 0 if it has none.
pub fn value_word(item: &Item) -> usize
    ensures { result ≡ word_at item.now.value }
{
    match item.value {
        Some(spot) => spot.word,
        None => 0,
    }
}

/// A number, if it is within a range.
pub fn within_range(number: u64, least: u64, most: u64) -> Option<u64>
    ensures { result ≡ within_range least most number }
{
    if least <= number && number <= most {
        Some(number)
    } else {
        None
    }
}

/// The size of a sector that a text gives, if it does.
pub(crate) fn read_sector(text: &str) -> Option<u64>
    ensures { result ≡ sector_of text.now }
{
    let sector = read_size(text, DEFAULT_SECTOR).ok()?;
    within_range(sector, 1, LARGEST_SECTOR)
}

/// The size in bytes that a value gives, if it does; `s` is the sector in it.
pub fn size_by(sector: u64, value: Option<&str>) -> Option<u64>
    requires { IsSector sector }
    ensures { result ≡ size_by sector (option_map (λ v. v.now) value.entry) }
{
    read_size(value?, sector).ok()
}

/// The number that a value gives, if it does.
pub fn number_by(value: Option<&str>) -> Option<u64>
    ensures { result ≡ number_by (option_map (λ v. v.now) value.entry) }
{
    read_number(value?).ok()
}

/// Whether a value is a name: any text that isn't empty.
pub fn is_name(value: Option<&str>) -> bool
    ensures { result ≡ is_name (option_map (λ v. v.now) value.entry) }
{
    match value {
        Some(text) => !text.is_empty(),
        None => false,
    }
}
