//! The line of a sample.
ghost use Rattle.std.specs.Prelude.{◌≡◌, ◌++◌, IfOk, OnOk};
ghost use Rattle.std.specs.Fmt.{decimal};
ghost use Rattle.rescue_sample.specs.Line.{sample_text};

use crate::source::Answered;
use block_list::tiles::NoMemory;
use itoa::Buffer;
use rescue_rules::report::Counts;
use std::alloc::Global;

/// Adds a text to a line.
pub fn add(line: &mut Vec<u8>, text: &str) -> Result<(), NoMemory>
    ensures { OnOk result (line.new.items ≡ line.old.items ++ text.now) }
{
    Ok(line.extend_from_slice(text.as_bytes())?)
}

/// Adds a number, and a text after it.
fn add_number(line: &mut Vec<u8>, number: u64, text: &str) -> Result<(), NoMemory>
    ensures { OnOk result (line.new.items ≡ line.old.items ++ decimal number ++ text.now) }
{
    add(line, Buffer::new().format(number))?;
    add(line, text)
}

/// The line on a sample: its size, the reads of its rescue, and what there is in the last map.
pub fn sample_line(
    alloc: Global,
    kib: u64,
    answered: Answered,
    counts: Counts,
) -> Result<Vec<u8>, NoMemory>
    ensures { IfOk result (λ line. line.items ≡ sample_text kib answered counts) }
{
    let mut line = Vec::new(alloc);
    add(&mut line, "sample of ")?;
    add_number(&mut line, kib, " KiB: ")?;
    add_number(&mut line, answered.reads, " reads, ")?;
    add_number(&mut line, answered.failed, " failed, ")?;
    add_number(&mut line, counts.rescued, " B rescued, ")?;
    add_number(&mut line, counts.failed.bytes, " B bad")?;
    add(&mut line, "\n")?;
    Ok(line)
}
