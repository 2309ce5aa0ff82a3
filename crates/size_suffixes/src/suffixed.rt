//! A number with a suffix, as a text is made of both.
ghost use Rattle.std.specs.Prelude.{◌≡◌, ◌*◌, ◌<◌, ◌≤◌, IfSome, length};
ghost use Rattle.size_suffixes.specs.Number.{is_hexadecimal, number, within, value};
ghost use Rattle.size_suffixes.specs.Suffixed.{number_end, taken_base, times};

use crate::error::SizeError;
use crate::number::{first_no_digit, limited, parse_number, start_of_digits};

/// The base of the digits that a number takes.
fn base_of_taken(bytes: &[u8]) -> u64
    ensures { result ≡ taken_base bytes.now }
{
    match bytes {
        [b'0', b'x' | b'X', ..] => 16,
        _ => 10,
    }
}

/// Where the number at the front of a text ends.
pub(crate) fn end_of_number(bytes: &[u8]) -> usize
    ensures value { result ≡ number_end bytes.now }
    ensures within { result ≤ length bytes.now }
{
    let start = start_of_digits(bytes);
    let digits = &bytes[start..];
    match first_no_digit(base_of_taken(bytes), digits) {
        Some(place) => start + place,
        None => bytes.len(),
    }
}

/// The product of a number below 2^63 and a factor, if it is below 2^63 too.
fn product(number: u64, factor: u64) -> Result<u64, SizeError>
    ensures { result ≡ within (number * factor) }
{
    match number.checked_mul(factor) {
        Some(value) => limited(value),
        None => Err(SizeError::TooLarge),
    }
}

/// The number that digits are, times the factor that its suffix stands for.
pub(crate) fn multiplied(digits: &[u8], factor: Option<u64>) -> Result<u64, SizeError>
    requires { IfSome factor (λ m. 0 < m) }
    ensures { result ≡ times (number digits.now) digits.now factor }
{
    match (parse_number(digits), factor) {
        (Err(SizeError::Empty), _) => Err(SizeError::BadDigit { at: 0 }),
        (Err(SizeError::TooLarge) | Ok(_), None) => Err(SizeError::BadSuffix { at: digits.len() }),
        (Ok(number), Some(factor)) => product(number, factor),
        (Err(error), _) => Err(error),
    }
}
