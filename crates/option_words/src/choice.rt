//! Which option of a table a word means, in full or by its beginning.
ghost use Rattle.std.specs.Prelude.{◌≡◌, count_by};
ghost use Rattle.option_words.specs.Rows.{begins_with, chosen_by_name, first_row, has_letter, has_name};

use crate::row::{Row, Takes};

/// A row that was found.
#[derive(Clone, Copy)]
pub(crate) struct Chosen {
    pub row: usize,
    pub takes: Takes,
}

/// The rows that a long name may mean.
#[derive(Clone, Copy)]
pub(crate) enum Choice {
    One(Chosen),
    Unknown,
    Several,
}

/// The first row that has a letter.
pub(crate) fn find_letter(rows: &[Row], letter: char) -> Option<Chosen>
    ensures { result ≡ first_row (has_letter letter) 0 rows.now }
{
    for (row, candidate) in rows.iter().enumerate() {
        if candidate.short == Some(letter) {
            return Some(Chosen {
                row,
                takes: candidate.takes,
            });
        }
    }
    None
}

/// The first row that has a name.
fn find_name(rows: &[Row], name: &[u8]) -> Option<Chosen>
    ensures { result ≡ first_row (has_name name.now) 0 rows.now }
{
    for (row, candidate) in rows.iter().enumerate() {
        if candidate.long.as_bytes() == name {
            return Some(Chosen {
                row,
                takes: candidate.takes,
            });
        }
    }
    None
}

/// Whether the name of a row begins with these bytes.
fn is_begun(row: &Row, front: &[u8]) -> bool
    ensures { result ≡ begins_with front.now row.now }
{
    row.long.as_bytes().starts_with(front)
}

/// The first row whose name begins with these bytes.
fn find_begun(rows: &[Row], front: &[u8]) -> Option<Chosen>
    ensures { result ≡ first_row (begins_with front.now) 0 rows.now }
{
    for (row, candidate) in rows.iter().enumerate() {
        if is_begun(candidate, front) {
            return Some(Chosen {
                row,
                takes: candidate.takes,
            });
        }
    }
    None
}

/// How many rows have a name that begins with these bytes.
fn count_begun(rows: &[Row], front: &[u8]) -> usize
    ensures { result ≡ count_by (begins_with front.now) rows.now }
{
    rows.iter().filter(|row| is_begun(row, front)).count()
}

/// The row that a long name chooses.
pub(crate) fn choose(rows: &[Row], name: &[u8]) -> Choice
    ensures { result ≡ chosen_by_name rows.now name.now }
{
    if let Some(chosen) = find_name(rows, name) {
        return Choice::One(chosen);
    }
    match find_begun(rows, name) {
        None => Choice::Unknown,
        Some(chosen) if count_begun(rows, name) == 1 => Choice::One(chosen),
        Some(_) => Choice::Several,
    }
}
