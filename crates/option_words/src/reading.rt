//! What the reading of words gives: options, operands, and where each was.

/// Where a value is: in a word, counted from 1, from a byte on to the word's end.
#[derive(Clone, Copy, Debug, PartialEq, Eq)]
pub struct Spot {
    pub word: usize,
    pub from: usize,
}

/// An option that was given.
#[derive(Clone, Copy, Debug, PartialEq, Eq)]
pub struct Item {
    /// Its row in the table, counted from 0.
    pub row: usize,
    /// The word that the option is in, counted from 1; its value may be in the next one.
    pub word: usize,
    /// Its value, if it has one.
    pub value: Option<Spot>,
}

/// Words that were read.
#[derive(Debug, Drop)]
pub struct WordReading {
    /// The options in the order in which they were given.
    pub items: Vec<Item>,
    /// The words that are operands, counted from 1, in ascending order.
    pub operands: Vec<usize>,
}
