//! What can be wrong with the words of a command line.
use std::alloc::AllocFailed;
use thiserror::Error;

/// Why words can't be read by a table. Words are counted from 1. The first faulty word decides, and in a group of
/// letters the first faulty one.
#[derive(Clone, Copy, Debug, PartialEq, Eq, Error)]
pub enum WordFault {
    /// A letter of a group is no row's.
    #[error("UnknownShort")]
    UnknownShort { word: usize, letter: char },
    /// No row's name begins with a long name.
    #[error("UnknownLong")]
    UnknownLong { word: usize },
    /// A long name is no row's name, and two rows' names or more begin with it.
    #[error("Ambiguous")]
    Ambiguous { word: usize },
    /// The last word ends with an option that takes a value, and has none for it.
    #[error("MissingValue")]
    MissingValue { word: usize },
    /// A long name has a value, and its option takes none.
    #[error("UnwantedValue")]
    UnwantedValue { word: usize },
    /// There wasn't enough memory.
    #[error("NoMemory")]
    NoMemory,
}

impl<T: Drop> From<AllocFailed<T>> for WordFault {
    ghost use Rattle.std.specs.Prelude.{◌≡◌};
    ghost use Rattle.option_words.specs.declared.fault.WordFault.TheVariants.{NoMemory as OutOfMemory};

    ghost from_gives = { λ _ e. e ≡ OutOfMemory };

    fn from(_failed: AllocFailed<T>) -> WordFault {
        WordFault::NoMemory
    }
}

/// Why words ask for nothing that can be done. Words are counted from 1.
#[derive(Clone, Copy, Debug, PartialEq, Eq, Error)]
pub enum UsageFault {
    /// The words can't be read. Lack of memory isn't among these: it is no fault of the words.
    #[error("{0}")]
    Word(WordFault),
    /// The value that begins in this word is refused.
    #[error("BadValue")]
    BadValue { word: usize },
    /// The option in this word doesn't go with others that are given.
    #[error("Conflict")]
    Conflict { word: usize },
    /// The number of modes isn't the one that is wanted.
    #[error("Modes")]
    Modes { given: usize },
    /// The number of operands isn't the one that is wanted.
    #[error("Operands")]
    Operands { given: usize },
    /// The output would have a place of 2^63 or more.
    #[error("PlaceTooLarge")]
    PlaceTooLarge,
}
