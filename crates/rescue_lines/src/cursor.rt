//! A text that is read from its front on.
ghost use Rattle.std.specs.Prelude.{◌≡◌, ◌↔◌, ℕ, ◌^◌, min, true, IsTrue, List, [], None, Some};
ghost use Rattle.std.specs.Char.{digit_value};
ghost use Rattle.rescue_lines.specs.Lines.{Strips, StripsNumber, begins_plain, number_at};

use itoa::Buffer;
use std::marker::Model;

/// The value of a digit, and 10 for any other byte.
fn digit_of(byte: u8) -> u128
    ensures { result ≡ min (digit_value byte) 10 }
{
    match byte {
        b'0'..=b'9' => u128::from(byte - b'0'),
        _ => 10,
    }
}

/// The value of the digits with which a text begins, or the largest `u128` if it is larger still.
fn number_at(text: &[u8]) -> u128
    ensures { result ≡ number_at 0 text.now }
{
    let mut value: u128 = 0;
    for byte in text {
        let digit = digit_of(*byte);
        if digit == 10 {
            return value;
        }
        value = value.saturating_mul(10).saturating_add(digit);
    }
    value
}

/// What is left of a text that is read from its front on; nothing if it turned out to be another text.
#[derive(Drop)]
pub(crate) struct Cursor<'a> {
    rest: Option<&'a [u8]>,
}

impl<'a> Model for Cursor<'a> {
    ghost use Rattle.std.specs.Prelude.{ℕ, List, Option, option_map};

    ghost Value = { Option (List ℕ) };

    ghost view = { λ c. option_map (λ r. r.now) c.rest };
}

impl<'a> Cursor<'a> {
    /// At the front of a text.
    pub(crate) fn new(text: &'a [u8]) -> Cursor<'a>
        ensures { result ≡ Some text.now }
    {
        Cursor { rest: Some(text) }
    }

    /// Reads a piece.
    pub(crate) fn read(&mut self, piece: &str)
        ensures { Strips piece.now self.old self.new }
    {
        let Some(rest) = self.rest else {
            return;
        };
        self.rest = rest.strip_prefix(piece.as_bytes());
    }

    /// The value of the digits that come next.
    fn value(&self) -> u128
        ensures { (rest : List ℕ) → self.now ≡ Some rest → result ≡ number_at 0 rest }
    {
        match self.rest {
            Some(rest) => number_at(rest),
            None => 0,
        }
    }

    /// Reads a number, and a piece after it that begins with no digit.
    pub(crate) fn read_wide(&mut self, after: &str) -> u128
        requires { begins_plain after.now ≡ true }
        ensures { StripsNumber (2 ^ 128) after.now result self.old self.new }
    {
        let value = self.value();
        self.read(Buffer::new().format(value));
        self.read(after);
        value
    }

    /// Reads a number below 2^64, and a piece after it that begins with no digit.
    pub(crate) fn read_number(&mut self, after: &str) -> u64
        requires { begins_plain after.now ≡ true }
        ensures { StripsNumber (2 ^ 64) after.now result self.old self.new }
    {
        let value = self.read_wide(after);
        match u64::try_from(value) {
            Ok(value) => value,
            Err(_) => {
                self.rest = None;
                0
            }
        }
    }

    /// Whether all was read.
    pub(crate) fn is_at_end(&self) -> bool
        ensures { IsTrue result ↔ (self.now ≡ Some []) }
    {
        match self.rest {
            Some(rest) => rest.is_empty(),
            None => false,
        }
    }

    /// Whether the text turned out to be another one.
    pub(crate) fn is_lost(&self) -> bool
        ensures { IsTrue result ↔ (self.now ≡ None) }
    {
        self.rest.is_none()
    }
}
