//! The reading of a size with its suffix.
ghost use Rattle.std.specs.Prelude.{◌≡◌, ◌<◌, ◌≤◌, IfSome};
ghost use Rattle.size_suffixes.specs.Sectors.{IsSector};
ghost use Rattle.size_suffixes.specs.Size.{binary_multiplier, multiplier, size, size_factor};

use crate::error::SizeError;
use crate::suffixed::{end_of_number, multiplied};

/// What a multiplier of one letter stands for.
fn letter_value(sector: u64, letter: u8) -> Option<u64>
    requires { 0 < sector }
    ensures value { result ≡ multiplier sector letter }
    ensures positive { IfSome result (λ m. 0 < m) }
{
    match letter {
        b's' => Some(sector),
        b'k' => Some(1_000),
        b'M' => Some(1_000_000),
        b'G' => Some(1_000_000_000),
        b'T' => Some(1_000_000_000_000),
        b'P' => Some(1_000_000_000_000_000),
        b'E' => Some(1_000_000_000_000_000_000),
        _ => None,
    }
}

/// What a letter with `i` after it stands for.
fn binary_value(letter: u8) -> Option<u64>
    ensures value { result ≡ binary_multiplier letter }
    ensures positive { IfSome result (λ m. 0 < m) }
{
    match letter {
        b'K' => Some(1 << 10),
        b'M' => Some(1 << 20),
        b'G' => Some(1 << 30),
        b'T' => Some(1 << 40),
        b'P' => Some(1 << 50),
        b'E' => Some(1 << 60),
        _ => None,
    }
}

/// The factor that what follows the number stands for.
fn suffix_value(sector: u64, suffix: &[u8]) -> Option<u64>
    requires { 0 < sector }
    ensures value { result ≡ size_factor sector suffix.now }
    ensures positive { IfSome result (λ m. 0 < m) }
{
    match suffix {
        [] | [b'B'] => Some(1),
        [letter] | [letter, b'B'] => letter_value(sector, *letter),
        [letter, b'i'] | [letter, b'i', b'B'] => binary_value(*letter),
        _ => None,
    }
}

/// Reads a size, in bytes, and nothing else: a number as `parse_number` reads it, then a multiplier or none, then `B`
/// or nothing. The multiplier `s` is the size of a sector; `k`, `M`, `G`, `T`, `P` and `E` are powers of 1,000, and
/// `Ki`, `Mi`, `Gi`, `Ti`, `Pi` and `Ei` powers of 1,024. A `B` after a hexadecimal number is a digit of it. Anything
/// else after the number is `BadSuffix` at the number's end.
pub fn read_size(text: &str, sector: u64) -> Result<u64, SizeError>
    requires { IsSector sector }
    ensures { result ≡ size sector text.now }
{
    let bytes = text.as_bytes();
    if bytes.is_empty() {
        return Err(SizeError::Empty);
    }
    let (digits, suffix) = bytes.split_at(end_of_number(bytes));
    multiplied(digits, suffix_value(sector, suffix))
}
