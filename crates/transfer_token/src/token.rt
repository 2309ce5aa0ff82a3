//! What becomes of a request, as values that can't be let go. Only this crate makes them, and no range is empty.
ghost use Rattle.std.specs.Prelude.{◌≡◌, ◌<◌};

use block_list::block::Range;
use std::marker::{Model, PhantomData};

/// A range of the input that is asked for, in bytes.
#[derive(Clone, Copy, Debug, PartialEq, Eq)]
pub struct Request {
    pub pos: u64,
    pub len: usize,
}

/// A range of a request, as a value that can't be let go. `K` says what became of it.
pub struct Token<K> {
    pub(crate) range: Range,
    pub(crate) fate: PhantomData<K>,
}

impl<K> Model for Token<K> {
    ghost use Rattle.std.specs.Prelude.{◌<◌};
    ghost use Rattle.block_list.specs.declared.block.Range.{Range};

    ghost Value = { Range };

    ghost view = { λ token. token.range };

    ghost invariant = { λ token. token.range.from < token.range.to };
}

impl<K> Token<K> {
    /// The token of a range.
    #[inline(always)]
    pub(crate) fn of(range: Range) -> Token<K>
        requires { range.from < range.to }
        ensures { result ≡ range }
    {
        Token {
            range,
            fate: PhantomData,
        }
    }

    /// Spends the token for its range.
    #[inline(always)]
    pub(crate) fn spend(self) -> Range
        ensures range { result ≡ self }
        ensures some { self.from < self.to }
    {
        let Token { range, fate: _fate } = self;
        range
    }

    /// The range.
    pub fn range(&self) -> Range
        ensures range { result ≡ self.now }
        ensures some { self.now.from < self.now.to }
    {
        self.range
    }
}

impl<K: SetsAside> Token<K> {
    /// Spends the token with no mark in a map.
    pub fn set_aside(self) -> Range
        ensures range { result ≡ self }
        ensures some { self.from < self.to }
    {
        self.spend()
    }
}

/// What became of a range that may be set aside.
pub trait SetsAside {}

impl SetsAside for NotWritten {}

impl SetsAside for NotRead {}

/// Marks the token of a range that was read.
pub struct IsRead;

/// Marks the token of a range that was read and written.
pub struct IsWritten;

/// Marks the token of a range that was read, and whose write failed.
pub struct NotWritten;

/// Marks the token of a range of which nothing is kept.
pub struct NotRead;

/// A range that was read, and whose bytes are at the buffer's front. Only `land` spends it.
pub type Loaded = Token<IsRead>;

/// A range that was read, and whose bytes were written to the output. Only `book` spends it.
pub type Landed = Token<IsWritten>;

/// A range that was read, and whose bytes couldn't be written to the output. Only `set_aside` spends it.
pub type Unlanded = Token<NotWritten>;

/// A range that was asked for, and of which nothing is kept. Only `book_missed` and `set_aside` spend it.
pub type Missed = Token<NotRead>;

/// The input ended here, so that nothing is left to ask for from this position on. Only `end` spends it.
pub struct Over {
    pub(crate) end: u64,
}

impl Model for Over {
    ghost use Rattle.std.specs.Prelude.{ℕ};

    ghost Value = { ℕ };

    ghost view = { λ over. over.end };
}

impl Over {
    /// Where the input ended, as a position of it.
    pub fn end(self) -> u64
        ensures { result ≡ self }
    {
        let Over { end } = self;
        end
    }
}
