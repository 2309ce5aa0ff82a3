//! The digits of numbers.
ghost use Rattle.std.specs.Prelude.{◌≡◌, ℕ, ◌^◌, ◌<◌, ◌≤◌, take, drop, replicate, length, true};
ghost use Rattle.std.specs.Fmt.{digits, digit_glyph};
ghost use Rattle.mapfile_text.specs.Printed.{hexadecimal};

/// Writes the digits of `n` over the last of 64 zeros, and returns where they begin.
#[inline(always)]
pub(crate) fn write_digits(out: &mut [u8; 64], n: u64, base: u64) -> usize
    requires some { 2 ≤ base }
    requires few { base ≤ 16 }
    requires zeros { out.old ≡ replicate 64 48 }
    ensures within { result ≤ 64 }
    ensures zeros { take result out.new ≡ replicate result 48 }
    ensures digits { drop result out.new ≡ digits base true n }
{
    let mut i = 64;
    let mut rest = n;
    while i > 0 {
        i -= 1;
        out[i] = digit(rest % base);
        rest /= base;
        if rest == 0 {
            break;
        }
    }
    i
}

/// A position or a size that takes no more than eight digits.
#[inline(always)]
pub(crate) fn short_hexadecimal(n: u64) -> [u8; 10]
    requires { n < 2 ^ 32 }
    ensures { result ≡ hexadecimal n }
{
    let mut out = *b"0x00000000";
    let mut i = 10;
    let mut rest = n;
    while i > 2 {
        i -= 1;
        out[i] = digit(rest % 16);
        rest /= 16;
    }
    out
}

fn digit(d: u64) -> u8
    requires { d < 16 }
    ensures { result ≡ digit_glyph true d }
{
    if d < 10 {
        b'0' + d as u8
    } else {
        b'A' - 10 + d as u8
    }
}
