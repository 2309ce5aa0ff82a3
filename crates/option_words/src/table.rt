//! A table of options, and when it is well formed.
ghost use Rattle.std.specs.Prelude.{◌≡◌, true, is_some, IfSome};
ghost use Rattle.std.specs.List.{list_all};
ghost use Rattle.option_words.specs.Tables.{share_nothing, fits_table, holds_no_sign, is_table, letter_fits, name_fits};

use crate::row::Row;
use std::marker::Model;

/// A table of options, each with a letter and a name of its own. Rows are counted from 0.
#[derive(Drop)]
pub struct OptionTable {
    rows: &'static [Row],
}

impl Model for OptionTable {
    ghost use Rattle.std.specs.Prelude.{List};
    ghost use Rattle.option_words.specs.declared.row.Row.{Row};

    ghost Value = { List Row };

    ghost view = { λ t. t.rows.now };
}

impl OptionTable {
    /// The table of these rows. There is none if two rows share a letter or a name, a letter is `-`, or a name is empty
    /// or holds `=`.
    pub fn checked(rows: &'static [Row]) -> Option<OptionTable>
        ensures checks { is_some result ≡ is_table rows.now }
        ensures rows { IfSome result (λ t. t ≡ rows.now) }
    {
        if is_well_formed(rows) {
            Some(OptionTable { rows })
        } else {
            None
        }
    }

    /// The table of rows that are known to be one.
    pub fn of(rows: &'static [Row]) -> OptionTable
        requires { is_table rows.now ≡ true }
        ensures { result ≡ rows.now }
    {
        OptionTable { rows }
    }

    /// The rows.
    pub fn rows(&self) -> &'static [Row]
        ensures { result.now ≡ self.now }
    {
        self.rows
    }
}

/// Whether a letter may be an option's.
fn is_letter_fit(letter: Option<char>) -> bool
    ensures { result ≡ letter_fits letter }
{
    match letter {
        Some(letter) => letter != '-',
        None => true,
    }
}

/// Whether no byte is `=`.
fn has_no_sign(bytes: &[u8]) -> bool
    ensures { result ≡ holds_no_sign bytes.now }
{
    bytes.iter().all(|byte| *byte != b'=')
}

/// Whether a name may be an option's.
fn is_name_fit(name: &str) -> bool
    ensures { result ≡ name_fits name.now }
{
    !name.is_empty() && has_no_sign(name.as_bytes())
}

/// Whether two rows share neither their letter nor their name.
fn differ(row: &Row, other: &Row) -> bool
    ensures { result ≡ share_nothing row.now other.now }
{
    let share_letter = match (row.short, other.short) {
        (Some(letter), Some(other)) => letter == other,
        _ => false,
    };
    !share_letter && row.long != other.long
}

/// Whether a row shares neither its letter nor its name with others.
fn differs_from_all(row: &Row, others: &[Row]) -> bool
    ensures { result ≡ list_all (share_nothing row.now) others.now }
{
    others.iter().all(|other| differ(row, other))
}

/// Whether a row may come before others.
fn fits_before(row: &Row, others: &[Row]) -> bool
    ensures { result ≡ fits_table row.now others.now }
{
    is_letter_fit(row.short) && is_name_fit(row.long) && differs_from_all(row, others)
}

/// Whether rows are a table.
fn is_well_formed(rows: &[Row]) -> bool
    ensures { result ≡ is_table rows.now }
{
    for i in 0..rows.len() {
        if !fits_before(&rows[i], &rows[i + 1..]) {
            return false;
        }
    }
    true
}
