//! The numbers that fields spell.
ghost use Rattle.std.specs.Prelude.{◌≡◌, ◌≤◌, length, min, IfNone, IfSome};
ghost use Rattle.std.specs.Char.{digit_value};
ghost use Rattle.std.specs.Option.{option_map};
ghost use Rattle.std.specs.Str.Parse.{AllDigits, digits_value};
ghost use Rattle.mapfile_text.specs.Fields.{numeral};
ghost use Rattle.mapfile_reader.specs.Reading.{capped};

use size_suffixes::error::SizeError;
use size_suffixes::number::parse_number;

/// The least number that is too large.
pub(crate) const LIMIT: u64 = 1 << 63;

/// How many hexadecimal digits are always below the limit.
const SHORT: usize = 15;

/// The value of a hexadecimal digit, and 16 for any other byte.
fn value_of_digit(byte: u8) -> u64
    ensures { result ≡ min (digit_value byte) 16 }
{
    match byte {
        b'0'..=b'9' => u64::from(byte - b'0'),
        b'A'..=b'F' => u64::from(byte - b'A') + 10,
        b'a'..=b'f' => u64::from(byte - b'a') + 10,
        _ => 16,
    }
}

/// The value of a few hexadecimal digits.
fn hexadecimal(digits: &[u8]) -> Option<u64>
    requires { length digits.now ≤ 15 }
    ensures digits { IfSome result (λ n. AllDigits 16 digits.now) }
    ensures value { IfSome result (λ n. n ≡ digits_value 16 digits.now) }
    ensures none { IfNone result (AllDigits 16 digits.now → ⊥) }
{
    let mut value = 0;
    for byte in digits {
        let digit = value_of_digit(*byte);
        if digit == 16 {
            return None;
        }
        value = value * 16 + digit;
    }
    Some(value)
}

/// The number that a field is, or the limit if it is larger.
pub(crate) fn capped_numeral(field: &[u8]) -> Option<u64>
    ensures { result ≡ option_map capped (numeral field.now) }
{
    match field {
        // What mapfiles have: a hexadecimal number that is below the limit.
        [b'0', b'x', digits @ ..] if !digits.is_empty() && digits.len() <= SHORT => {
            hexadecimal(digits)
        }
        _ => match parse_number(field) {
            Ok(number) => Some(number),
            Err(SizeError::TooLarge) => Some(LIMIT),
            Err(_) => None,
        },
    }
}
