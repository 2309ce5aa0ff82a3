//! The reading of words by a table of options.
ghost use Rattle.std.specs.Prelude.{◌≡◌, ◌⊎◌, ◌-◌, ◌≤◌, [], length, drop, All, IfOk, IfErr, OnOk, IsOkAnd};
ghost use Rattle.std.specs.Str.{chars};
ghost use Rattle.option_words.specs.Forms.{form_of};
ghost use Rattle.option_words.specs.Meanings.{letters_meaning, meaning, name_meaning, one_item, one_operand, option_meaning, rest_value};
ghost use Rattle.option_words.specs.Reading.{IsReading, IsServed, IsUnserved, WordFaultAt};
ghost use Rattle.option_words.specs.Spots.{HasSpot};
ghost use Rattle.option_words.specs.Taken.{IsFaultOf, Took};
ghost use Rattle.option_words.specs.declared.form.Form.TheVariants.{Letters as IsLetters, Name as IsName};
ghost use Rattle.option_words.specs.declared.fault.WordFault.TheVariants.{NoMemory as OutOfMemory};

use crate::choice::{Choice, Chosen, choose, find_letter};
use crate::fault::WordFault;
use crate::form::{Form, find_form};
use crate::long_name::split_name;
use crate::reading::{Item, Spot, WordReading};
use crate::row::{Row, Takes};
use crate::table::OptionTable;
use crate::words::Words;
use std::alloc::Global;

/// An option that takes the next word as its value, and the word in which it is.
#[derive(Clone, Copy)]
pub(crate) struct WantedValue {
    pub row: usize,
    pub word: usize,
}

/// How the next word is read.
#[derive(Clone, Copy)]
pub(crate) enum NextWord {
    /// By what it looks like.
    Anything,
    /// As a value.
    Value(WantedValue),
    /// As an operand, as all that follow.
    Operand,
}

/// What the words so far have given.
#[derive(Drop)]
pub(crate) struct Reader {
    pub items: Vec<Item>,
    pub operands: Vec<usize>,
    pub next: NextWord,
}

impl Reader {
    /// Nothing so far.
    fn new(alloc: Global) -> Reader
        ensures items { result.items.items ≡ [] }
        ensures operands { result.operands.items ≡ [] }
        ensures next { result.next ≡ NextWord.Anything }
    {
        Reader {
            items: Vec::new(alloc),
            operands: Vec::new(alloc),
            next: NextWord::Anything,
        }
    }

    /// Takes an option.
    fn put_item(&mut self, item: Item) -> Result<(), WordFault>
        ensures ok { OnOk result (Took self.old self.new (one_item item.row item.word item.value)) }
        ensures err { IfErr result (λ e. e ≡ OutOfMemory) }
    {
        self.items.push(item)?;
        self.next = NextWord::Anything;
        Ok(())
    }

    /// Takes an operand.
    fn put_operand(&mut self, word: usize) -> Result<(), WordFault>
        ensures ok { OnOk result (Took self.old self.new (one_operand word self.old.next)) }
        ensures err { IfErr result (λ e. e ≡ OutOfMemory) }
    {
        Ok(self.operands.push(word)?)
    }

    /// Takes an option that a word has, with the value that this word has for it.
    fn put_option(
        &mut self,
        chosen: Chosen,
        word: usize,
        value: Option<Spot>,
    ) -> Result<(), WordFault>
        ensures ok { OnOk result (IsOkAnd (option_meaning chosen.takes chosen.row word value)
            (λ b. Took self.old self.new b)) }
        ensures err { IfErr result (λ e. IsFaultOf (option_meaning chosen.takes chosen.row word value) e) }
    {
        let row = chosen.row;
        match (chosen.takes, value) {
            (Takes::Never, Some(_)) => Err(WordFault::UnwantedValue { word }),
            (Takes::Always, None) => {
                self.next = NextWord::Value(WantedValue { row, word });
                Ok(())
            }
            (_, value) => self.put_item(Item { row, word, value }),
        }
    }

    /// Takes the letters of a word.
    fn take_letters(&mut self, rows: &[Row], n: usize, word: &str) -> Result<(), WordFault>
        requires anything { self.old.next ≡ NextWord.Anything }
        requires form { form_of word.now ≡ IsLetters }
        ensures ok { OnOk result (IsOkAnd (letters_meaning rows.now n 1 (chars (drop 1 word.now)))
            (λ b. Took self.old self.new b)) }
        ensures err { IfErr result (λ e. IsFaultOf (letters_meaning rows.now n 1 (chars (drop 1 word.now))) e) }
    {
        let mut letters = word[1..].chars();
        while let Some(letter) = letters.next() {
            let Some(chosen) = find_letter(rows, letter) else {
                return Err(WordFault::UnknownShort { word: n, letter });
            };
            if !chosen.takes.stands_alone() {
                let value = find_rest_value(n, word, letters.as_str());
                return self.put_option(chosen, n, value);
            }
            let row = chosen.row;
            let value = None;
            self.put_item(Item {
                row,
                word: n,
                value,
            })?;
        }
        Ok(())
    }

    /// Takes a long name, and its value if it has one.
    fn take_name(&mut self, rows: &[Row], n: usize, word: &str) -> Result<(), WordFault>
        requires { form_of word.now ≡ IsName }
        ensures ok { OnOk result (IsOkAnd (name_meaning rows.now n (drop 2 word.now)) (λ b. Took self.old self.new b)) }
        ensures err { IfErr result (λ e. IsFaultOf (name_meaning rows.now n (drop 2 word.now)) e) }
    {
        let long = split_name(n, word);
        match choose(rows, long.name) {
            Choice::One(chosen) => self.put_option(chosen, n, long.value),
            Choice::Unknown => Err(WordFault::UnknownLong { word: n }),
            Choice::Several => Err(WordFault::Ambiguous { word: n }),
        }
    }

    /// Takes a word.
    fn take_word(&mut self, rows: &[Row], n: usize, word: &str) -> Result<(), WordFault>
        ensures ok { OnOk result (IsOkAnd (meaning rows.now self.old.next n word.now) (λ b. Took self.old self.new b)) }
        ensures err { IfErr result (λ e. IsFaultOf (meaning rows.now self.old.next n word.now) e) }
    {
        match self.next {
            NextWord::Value(wanted) => self.put_item(Item {
                row: wanted.row,
                word: wanted.word,
                value: Some(Spot { word: n, from: 0 }),
            }),
            NextWord::Operand => self.put_operand(n),
            NextWord::Anything => match find_form(word) {
                Form::Plain => self.put_operand(n),
                Form::Stop => {
                    self.next = NextWord::Operand;
                    Ok(())
                }
                Form::Name => self.take_name(rows, n, word),
                Form::Letters => self.take_letters(rows, n, word),
            },
        }
    }

    /// What all words have given.
    fn finish(self) -> Result<WordReading, WordFault>
        ensures ok { OnOk result (IsServed self.next) }
        ensures items { IfOk result (λ r. r.items.items ≡ self.items.items) }
        ensures operands { IfOk result (λ r. r.operands.items ≡ self.operands.items) }
        ensures err { IfErr result (λ e. IsUnserved self.next e) }
    {
        if let NextWord::Value(wanted) = self.next {
            return Err(WordFault::MissingValue { word: wanted.word });
        }
        let Reader {
            items,
            operands,
            ..
        } = self;
        Ok(WordReading { items, operands })
    }
}

/// The value after a letter: the rest of its word, unless that is empty.
fn find_rest_value(n: usize, word: &str, rest: &str) -> Option<Spot>
    requires { length rest.now ≤ length word.now }
    ensures { result ≡ rest_value n (length word.now - length rest.now) (chars rest.now) }
{
    if rest.is_empty() {
        return None;
    }
    Some(Spot {
        word: n,
        from: word.len() - rest.len(),
    })
}

/// Reads words by rows.
fn read_by_rows(alloc: Global, words: &Words, rows: &[Row]) -> Result<WordReading, WordFault>
    ensures reading { IfOk result (λ r. IsReading rows.now words.now r.items.items r.operands.items) }
    ensures spots { IfOk result (λ r. All (HasSpot words.now) r.items.items) }
    ensures fault { IfErr result (λ e. (e ≡ OutOfMemory) ⊎ WordFaultAt rows.now words.now e) }
{
    let mut reader = Reader::new(alloc);
    for i in 0..words.len() {
        reader.take_word(rows, i + 1, words.get(i + 1))?;
    }
    reader.finish()
}

/// Reads words by a table, in time linear in their bytes and in the rows.
///
/// Words are read from the first to the last. After a word `--` all words are operands. A longer word that begins with
/// `--` has a long name, or the only beginning of one, and after `=` its value. A word that begins with one `-` and is
/// longer is a group of letters; the first that takes a value takes the rest of the word. An option that always takes a
/// value and has none in its own word takes the whole next word, also one that begins with `-`. Every other word is an
/// operand.
pub fn read_words(
    alloc: Global,
    words: &Words,
    table: &OptionTable,
) -> Result<WordReading, WordFault>
    ensures reading { IfOk result (λ r. IsReading table.now words.now r.items.items r.operands.items) }
    // Each value is part of the words, so that its text can be asked for.
    ensures spots { IfOk result (λ r. All (HasSpot words.now) r.items.items) }
    ensures fault { IfErr result (λ e. (e ≡ OutOfMemory) ⊎ WordFaultAt table.now words.now e) }
{
    read_by_rows(alloc, words, table.rows())
}
