//! What the words of a program ask for, by a reading of them. All programs read their words here.
ghost use Rattle.std.specs.Prelude.{◌≡◌, true, ℕ, List, All, IfOk, IfErr, map};
ghost use Rattle.option_words.specs.Asked.{IsReadAs, IsRefusedAs};
ghost use Rattle.option_words.specs.Rows.{meaning_of_row};
ghost use Rattle.option_words.specs.Spots.{HasSpot};
ghost use Rattle.option_words.specs.Tables.{is_table};
ghost use Rattle.option_words.specs.Values.{IsWord, Meaning};
ghost use Rattle.option_words.specs.declared.reading.Item.{Item};
ghost use Rattle.option_words.specs.declared.fault.UsageFault.{UsageFault};

use crate::command_error::{CommandError, unread, usage_error};
use crate::fault::UsageFault;
use crate::reader::read_words;
use crate::reading::{Item, WordReading};
use crate::row::{Row, Wants};
use crate::table::OptionTable;
use crate::values::value_word;
use crate::words::Words;
use std::alloc::Global;

/// What the words of a program ask for.
pub trait Asked<'a>: Copy {
    /// The program's options.
    ghost options: { List Meaning };

    /// Whether a reading of the words asks for this.
    ghost asks: { List (List ℕ) → List Item → List ℕ → Self → Type 0 };

    /// Whether a reading of the words is refused for this fault.
    ghost refuses: { List (List ℕ) → List Item → List ℕ → UsageFault → Type 0 };

    /// The rows of the program's options.
    fn rows() -> &'static [Row]
        ensures table { is_table result.now ≡ true }
        ensures options { map meaning_of_row result.now ≡ options };

    /// What a reading of the words asks for.
    fn of_reading(
        table: &OptionTable,
        words: &'a Words,
        reading: &WordReading,
    ) -> Result<Self, UsageFault>
        requires table { map meaning_of_row table.now ≡ options }
        requires spots { All (HasSpot words.now) reading.now.items.items }
        requires operands { All (IsWord words.now) reading.now.operands.items }
        ensures asked { IfOk result (λ c. asks words.now reading.now.items.items reading.now.operands.items c) }
        ensures refused { IfErr result (λ f. refuses words.now reading.now.items.items reading.now.operands.items f) };
}

/// Why words ask for nothing, and what the value that is refused should be, if it is an option's.
#[derive(Clone, Copy, Debug)]
pub struct Refusal {
    pub error: CommandError,
    pub wants: Option<Wants>,
}

/// What the value that begins in a word should be, if it is an option's.
fn wanted_at(table: &OptionTable, items: &[Item], word: usize) -> Option<Wants> {
    for item in items {
        if value_word(item) == word {
            return Some(table.rows().get(item.row)?.wants);
        }
    }
    None
}

/// What the value that is refused should be, if a fault is of an option's value.
fn wanted_by(table: &OptionTable, items: &[Item], fault: UsageFault) -> Option<Wants> {
    match fault {
        UsageFault::BadValue { word } => wanted_at(table, items, word),
        _ => None,
    }
}

/// Reads the words of a command line: first the words themselves, then what their reading asks for.
pub fn read_asked<'a, A: Asked<'a>>(alloc: Global, words: &'a Words) -> Result<A, Refusal>
    ensures asked { IfOk result (λ c. IsReadAs A.options words.now
        (λ items operands. A.asks words.now items operands c)) }
    ensures refused { IfErr result (λ r. IsRefusedAs A.options words.now (A.refuses words.now) r.error) }
{
    let table = OptionTable::of(A::rows());
    let reading = match read_words(alloc, words, &table) {
        Ok(reading) => reading,
        Err(fault) => return Err(Refusal {
            error: unread(fault),
            wants: None,
        }),
    };
    match A::of_reading(&table, words, &reading) {
        Ok(asked) => Ok(asked),
        Err(fault) => Err(Refusal {
            error: usage_error(&table, &reading.items, fault),
            wants: wanted_by(&table, &reading.items, fault),
        }),
    }
}
