//! Texts and numbers that are added to a picture.
ghost use Rattle.std.specs.Prelude.{◌≡◌, ◌+◌, ◌-◌, ◌<◌, ◌≤◌, ◌++◌, ◌∷◌, [], length, replicate, OnOk};
ghost use Rattle.std.specs.Fmt.{decimal};
ghost use Rattle.ddrescueshow_cli.specs.Picture.{padded};

use block_list::tiles::NoMemory;
use itoa::Buffer;

/// Adds a text.
pub(crate) fn add(text: &mut Vec<u8>, part: &str) -> Result<(), NoMemory>
    ensures { OnOk result (text.new.items ≡ text.old.items ++ part.now) }
{
    Ok(text.extend_from_slice(part.as_bytes())?)
}

/// Adds a number, and a text after it.
pub(crate) fn add_number(text: &mut Vec<u8>, number: u64, part: &str) -> Result<(), NoMemory>
    ensures { OnOk result (text.new.items ≡ text.old.items ++ decimal number ++ part.now) }
{
    add(text, Buffer::new().format(number))?;
    add(text, part)
}

/// How many digits a number has.
fn digits(number: u64) -> u64
    ensures { result ≡ length (decimal number) }
{
    Buffer::new().format(number).len() as u64
}

/// Adds a byte `count` times.
pub(crate) fn add_bytes(text: &mut Vec<u8>, byte: u8, count: u64) -> Result<(), NoMemory>
    ensures { OnOk result (text.new.items ≡ text.old.items ++ replicate count byte) }
{
    let mut done = 0;
    while done < count {
        text.push(byte)?;
        done += 1;
    }
    Ok(())
}

/// Adds a number after as many blanks as make it as long as another, and a blank.
pub(crate) fn add_padded(text: &mut Vec<u8>, longest: u64, number: u64) -> Result<(), NoMemory>
    ensures { OnOk result (text.new.items ≡ text.old.items ++ padded (length (decimal longest)) number) }
{
    add_bytes(text, b' ', digits(longest).saturating_sub(digits(number)))?;
    add_number(text, number, " ")
}
