//! Numbers as texts: decimal, octal and hexadecimal.
ghost use Rattle.std.specs.Prelude.{◌≡◌, ◌-◌, ◌^◌, ◌<◌, ◌≤◌, Ok, length, min, position, IfSome};
ghost use Rattle.std.specs.Char.{digit_value};
ghost use Rattle.std.specs.Str.Parse.{AllDigits, digits_value};
ghost use Rattle.size_suffixes.specs.Number.{number, base_of, digits_at, is_no_digit, within};

use crate::error::SizeError;

/// The least value that is too large.
const LIMIT: u64 = 1 << 63;

/// How many decimal digits are always below the limit.
const FEW: usize = 18;

/// The base of a number by how it begins.
fn base_of_text(bytes: &[u8]) -> u64
    ensures { result ≡ base_of bytes.now }
{
    match bytes {
        [b'0', b'x' | b'X', ..] => 16,
        [b'0', ..] => 8,
        _ => 10,
    }
}

/// Where the digits of a number begin.
pub(crate) fn start_of_digits(bytes: &[u8]) -> usize
    ensures value { result ≡ digits_at bytes.now }
    ensures within { result ≤ length bytes.now }
{
    match bytes {
        [b'0', b'x' | b'X', ..] => 2,
        _ => 0,
    }
}

/// The value of a digit or a letter, and 36 for any other byte.
fn value_of_digit(byte: u8) -> u64
    ensures { result ≡ digit_value byte }
{
    match char::from(byte).to_digit(36) {
        Some(digit) => u64::from(digit),
        None => 36,
    }
}

/// The place of the first byte that is no digit in a base.
pub(crate) fn first_no_digit(base: u64, bytes: &[u8]) -> Option<usize>
    ensures place { result ≡ position (is_no_digit base) bytes.now }
    ensures within { IfSome result (λ k. k < length bytes.now) }
{
    bytes.iter().position(|byte| value_of_digit(*byte) >= base)
}

/// The value of digits in a base, or the largest `u64` if it is larger still.
fn saturated_value(base: u64, digits: &[u8]) -> u64
    requires { 0 < base }
    ensures { result ≡ min (digits_value base digits.now) (2 ^ 64 - 1) }
{
    let mut value: u64 = 0;
    for digit in digits {
        value = value
            .saturating_mul(base)
            .saturating_add(value_of_digit(*digit));
    }
    value
}

/// A value, if it is below 2^63.
pub(crate) fn limited(value: u64) -> Result<u64, SizeError>
    ensures { result ≡ within value }
{
    if value < LIMIT {
        Ok(value)
    } else {
        Err(SizeError::TooLarge)
    }
}

/// The value of a decimal digit, and 10 for any other byte.
fn value_of_decimal(byte: u8) -> u64
    ensures { result ≡ min (digit_value byte) 10 }
{
    match byte {
        b'0'..=b'9' => u64::from(byte - b'0'),
        _ => 10,
    }
}

/// The value of a few decimal digits.
fn decimal(digits: &[u8]) -> Option<u64>
    requires { length digits.now ≤ 18 }
    ensures digits { IfSome result (λ n. AllDigits 10 digits.now) }
    ensures value { IfSome result (λ n. n ≡ digits_value 10 digits.now) }
{
    let mut value = 0;
    for byte in digits {
        let digit = value_of_decimal(*byte);
        if digit == 10 {
            return None;
        }
        value = value * 10 + digit;
    }
    Some(value)
}

/// The number that a few decimal digits are.
fn short_decimal(bytes: &[u8]) -> Option<u64>
    ensures { IfSome result (λ n. number bytes.now ≡ Ok n) }
{
    match bytes {
        [b'1'..=b'9', ..] if bytes.len() <= FEW => decimal(bytes),
        _ => None,
    }
}

/// Reads a number of any base and length.
fn any_number(bytes: &[u8]) -> Result<u64, SizeError>
    ensures { result ≡ number bytes.now }
{
    if bytes.is_empty() {
        return Err(SizeError::Empty);
    }
    let base = base_of_text(bytes);
    let start = start_of_digits(bytes);
    let digits = &bytes[start..];
    if let Some(place) = first_no_digit(base, digits) {
        return Err(SizeError::BadDigit { at: start + place });
    }
    if digits.is_empty() {
        return Err(SizeError::BadDigit { at: start });
    }
    let value = saturated_value(base, digits);
    limited(value)
}

/// Reads a number that is all of some bytes, as a field of a line is: decimal, or octal after `0`, or hexadecimal after
/// `0x`. A number of any length is read; one of 2^63 or more is `TooLarge`.
pub fn parse_number(bytes: &[u8]) -> Result<u64, SizeError>
    ensures { result ≡ number bytes.now }
{
    // What lists of numbers have: a decimal number that is below the limit.
    match short_decimal(bytes) {
        Some(number) => Ok(number),
        None => any_number(bytes),
    }
}

/// Reads a number and nothing else, as `parse_number` does.
pub fn read_number(text: &str) -> Result<u64, SizeError>
    ensures { result ≡ number text.now }
{
    parse_number(text.as_bytes())
}
