//! The reading of an interval of time.
ghost use Rattle.std.specs.Prelude.{◌≡◌, ◌<◌, IfSome};
ghost use Rattle.size_suffixes.specs.Interval.{interval, interval_factor};

use crate::error::SizeError;
use crate::suffixed::{end_of_number, multiplied};

/// The seconds of the unit that what follows the number names.
fn unit_value(suffix: &[u8]) -> Option<u64>
    ensures value { result ≡ interval_factor suffix.now }
    ensures positive { IfSome result (λ m. 0 < m) }
{
    match suffix {
        [] | [b's'] => Some(1),
        [b'm'] => Some(60),
        [b'h'] => Some(3_600),
        [b'd'] => Some(86_400),
        _ => None,
    }
}

/// Reads an interval, in seconds, and nothing else: a number as `parse_number` reads it, then `s`, `m`, `h` or `d` for
/// seconds, minutes, hours or days, or nothing for seconds. Anything else after the number is `BadSuffix` at the
/// number's end.
pub fn read_interval(text: &str) -> Result<u64, SizeError>
    ensures { result ≡ interval text.now }
{
    let bytes = text.as_bytes();
    if bytes.is_empty() {
        return Err(SizeError::Empty);
    }
    let (digits, unit) = bytes.split_at(end_of_number(bytes));
    multiplied(digits, unit_value(unit))
}
