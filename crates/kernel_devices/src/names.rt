//! How the kernel's tables print the names of files.
ghost use Rattle.std.specs.Prelude.{◌≡◌, List, ℕ, IfOk};
ghost use Rattle.kernel_devices.specs.Names.{escaped, escaped_byte, octal_byte, unescaped};

use std::alloc::{AllocError, Global};

/// The byte for which a backslash and three octal digits stand, if these are such ones.
fn octal_byte(mark: u8, high: u8, middle: u8, low: u8) -> Option<u8>
    ensures { result ≡ octal_byte mark high middle low }
{
    if mark == b'\\'
        && b'0' <= high
        && high < b'4'
        && b'0' <= middle
        && middle < b'8'
        && b'0' <= low
        && low < b'8'
    {
        Some((high - b'0') * 64 + (middle - b'0') * 8 + (low - b'0'))
    } else {
        None
    }
}

/// The byte for which the front of a text stands, if that is a backslash and three octal digits.
fn escaped_byte(text: &[u8]) -> Option<u8>
    ensures { result ≡ escaped_byte text.now }
{
    if text.len() < 4 {
        return None;
    }
    octal_byte(text[0], text[1], text[2], text[3])
}

/// The name that a table of the kernel's prints so, with a byte in place of each backslash and three octal digits.
pub(crate) fn unescaped(alloc: Global, text: &[u8]) -> Result<Vec<u8>, AllocError>
    ensures text { IfOk result (λ name. name.items ≡ unescaped text.now) }
    ensures inverse { (printed : List ℕ) → text.now ≡ escaped printed → IfOk result (λ name. name.items ≡ printed) }
{
    let mut name = Vec::new(alloc);
    let mut skip = 0u8;
    for place in 0..text.len() {
        if skip > 0 {
            skip -= 1;
        } else if let Some(byte) = escaped_byte(&text[place..]) {
            name.push(byte)?;
            skip = 3;
        } else {
            name.push(text[place])?;
        }
    }
    Ok(name)
}

/// A name, without what the kernel adds to one that was removed.
pub(crate) fn without_mark(name: &str) -> &str {
    name.strip_suffix(" (deleted)").unwrap_or(name)
}
