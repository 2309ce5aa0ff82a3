//! What fields spell: numbers, names and bytes.
ghost use Rattle.std.specs.Prelude.{◌≡◌, ◌<◌, ◌+◌, ◌*◌, ◌/◌, ◌%◌, IfSome};

use crate::fields::{Field, Fields};
use crate::refusal::Refusal;
use std::str;

/// The most bytes that a scene states in all.
pub const BYTES_LIMIT: usize = 1 << 28;

/// The value of a hexadecimal digit.
fn digit_value(digit: u8) -> Option<u8>
    ensures { IfSome result (λ value. value < 16) }
{
    match digit {
        b'0'..=b'9' => Some(digit - b'0'),
        b'a'..=b'f' => Some(digit - b'a' + 10),
        b'A'..=b'F' => Some(digit - b'A' + 10),
        _ => None,
    }
}

/// The byte that two hexadecimal digits spell.
pub(crate) fn byte_of_digits(first: u8, second: u8) -> Result<u8, Refusal> {
    match (digit_value(first), digit_value(second)) {
        (Some(high), Some(low)) => Ok(high * 16 + low),
        _ => Err(Refusal::NotUnderstood),
    }
}

/// A number with one more digit, if it is below 2^64.
fn with_digit(value: u64, base: u8, digit: u8) -> Option<u64> {
    let added = digit_value(digit)?;
    if added >= base {
        return None;
    }
    value
        .checked_mul(u64::from(base))?
        .checked_add(u64::from(added))
}

fn read_digits(digits: &[u8], base: u8) -> Result<u64, Refusal> {
    if digits.is_empty() {
        return Err(Refusal::NotUnderstood);
    }
    let mut value = 0;
    for digit in digits {
        value = with_digit(value, base, *digit).ok_or(Refusal::NotUnderstood)?;
    }
    Ok(value)
}

/// Reads a number: decimal, or hexadecimal after `0x`.
pub(crate) fn read_number(text: &[u8]) -> Result<u64, Refusal> {
    match text.strip_prefix(b"0x") {
        Some(digits) => read_digits(digits, 16),
        None => read_digits(text, 10),
    }
}

/// Reads a text.
pub(crate) fn read_text(field: &Field) -> Result<String, Refusal> {
    match str::from_utf8(&field.bytes) {
        Ok(text) => Ok(String::from_str(*field.bytes.allocator(), text)?),
        Err(_) => Err(Refusal::NotUnderstood),
    }
}

/// The ramp's byte at a place: `(7 * place + place / 512) % 251`.
pub(crate) fn ramp(place: usize) -> u8
    ensures { result ≡ (7 * place + place / 512) % 251 }
{
    ((place % 251 * 7 + place / 512 % 251) % 251) as u8
}

/// Reads the items that are left of a line, and joins their bytes.
pub(crate) fn read_bytes(fields: Fields<'_>) -> Result<Vec<u8>, Refusal> {
    let mut bytes = Vec::new(fields.allocator());
    for field in fields {
        append_item(&mut bytes, &field?)?;
    }
    Ok(bytes)
}

fn append_item(bytes: &mut Vec<u8>, field: &Field) -> Result<(), Refusal> {
    let item = field.bytes.as_slice();
    if field.is_quoted {
        bytes.extend_from_slice(item)?;
        return Ok(());
    }
    match item.iter().position(|byte| *byte == b'*') {
        None => append_digits(bytes, item),
        Some(star) => {
            let count = read_number(&item[star + 1..])?;
            append_many(bytes, &item[..star], count)
        }
    }
}

/// Adds the bytes that pairs of digits spell.
fn append_digits(bytes: &mut Vec<u8>, digits: &[u8]) -> Result<(), Refusal> {
    if digits.len() % 2 != 0 {
        return Err(Refusal::NotUnderstood);
    }
    for pair in digits.chunks_exact(2) {
        bytes.push(byte_of_pair(pair)?)?;
    }
    Ok(())
}

fn byte_of_pair(pair: &[u8]) -> Result<u8, Refusal> {
    match pair {
        [first, second] => byte_of_digits(*first, *second),
        _ => Err(Refusal::NotUnderstood),
    }
}

/// Adds `count` bytes: those of the ramp, or each the byte that two digits spell.
fn append_many(bytes: &mut Vec<u8>, what: &[u8], count: u64) -> Result<(), Refusal> {
    let room = BYTES_LIMIT.saturating_sub(bytes.len());
    if count > room as u64 {
        return Err(Refusal::NotUnderstood);
    }
    if what == b"ramp".as_slice() {
        append_ramp(bytes, count as usize)
    } else {
        let byte = byte_of_pair(what)?;
        bytes.resize(bytes.len() + count as usize, byte)?;
        Ok(())
    }
}

fn append_ramp(bytes: &mut Vec<u8>, count: usize) -> Result<(), Refusal> {
    bytes.reserve(count)?;
    for _ in 0..count {
        bytes.push(ramp(bytes.len()))?;
    }
    Ok(())
}
