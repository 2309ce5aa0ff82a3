//! The words of a command line.
ghost use Rattle.std.specs.Prelude.{◌≡◌, ◌↔◌, IsTrue, ◌-◌, ◌≤◌, [], ◌∷◌, ◌++◌, length, drop, IfOk, OnOk, OnErr};
ghost use Rattle.std.specs.String.{string_bytes};
ghost use Rattle.option_words.specs.Spots.{IsSpot};
ghost use Rattle.option_words.specs.Words.{command_line, word};

use crate::reading::Spot;
use block_list::tiles::NoMemory;
use std::alloc::Global;
use std::marker::Model;

/// The words of a command line, without the program's own name.
#[derive(Drop)]
pub struct Words {
    alloc: Global,
    words: Vec<String>,
}

impl Model for Words {
    ghost use Rattle.std.specs.Prelude.{ℕ, List, map};
    ghost use Rattle.std.specs.String.{string_bytes};

    ghost Value = { List (List ℕ) };

    ghost view = { λ w. map string_bytes w.words.items };
}

impl Words {
    /// No words.
    pub fn new(alloc: Global) -> Words
        ensures { result ≡ [] }
    {
        Words {
            alloc,
            words: Vec::new(alloc),
        }
    }

    /// Adds a word at the end.
    pub fn push(&mut self, word: &str) -> Result<(), NoMemory>
        ensures ok { OnOk result (self.new ≡ self.old ++ word.now ∷ []) }
        ensures err { OnErr result (self.new ≡ self.old) }
    {
        let copy = String::from_str(self.alloc, word)?;
        Ok(self.words.push(copy)?)
    }

    /// A word, counted from 1.
    pub fn get(&self, i: usize) -> &str
        requires counted { 1 ≤ i }
        requires within { i ≤ length self.now }
        ensures { result.now ≡ word self.now i }
    {
        self.words[i - 1].as_str()
    }

    /// The text of a value.
    pub fn text(&self, spot: Spot) -> &str
        requires { IsSpot self.now spot }
        ensures { result.now ≡ drop spot.from (word self.now spot.word) }
    {
        &self.get(spot.word)[spot.from..]
    }

    /// How many words there are.
    pub fn len(&self) -> usize
        ensures { result ≡ length self.now }
    {
        self.words.len()
    }

    /// Whether there are none.
    pub fn is_empty(&self) -> bool
        ensures { IsTrue result ↔ (length self.now ≡ 0) }
    {
        self.words.is_empty()
    }

    /// The command line as text: the program's name, and a space before each word.
    pub fn command_line(&self, alloc: Global, program: &str) -> Result<String, NoMemory>
        ensures { IfOk result (λ line. string_bytes line ≡ command_line program.now self.now) }
    {
        let mut line = String::from_str(alloc, program)?;
        for i in 0..self.len() {
            line.push(' ')?;
            line.push_str(self.get(i + 1))?;
        }
        Ok(line)
    }
}
