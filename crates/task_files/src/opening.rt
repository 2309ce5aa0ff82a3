//! The line that says how much a rescue is asked for.
ghost use Rattle.std.specs.Prelude.{◌≡◌, [], ◌∷◌, ◌++◌, map, codes, IfOk, OnOk, option_map};
ghost use Rattle.std.specs.Fmt.{decimal};
ghost use Rattle.mapfile_text.specs.Printed.{shown_byte};
ghost use Rattle.rescue_console.specs.Speaking.{SpeaksOn, out_pieces};
ghost use Rattle.task_files.specs.Settings.{lines_in};

use block_list::tiles::NoMemory;
use itoa::Buffer;
use mapfile_text::heading::shown_byte;
use rescue_console::console::{Channel, Console};
use rescue_sample::line::add;
use std::alloc::Global;

/// Adds a name.
fn add_name(line: &mut Vec<u8>, name: &str) -> Result<(), NoMemory>
    ensures { OnOk result (line.new.items ≡ line.old.items ++ map shown_byte name.now) }
{
    for byte in name.as_bytes() {
        line.push(shown_byte(*byte))?;
    }
    Ok(())
}

/// How many bytes are asked for, and from where to where they are rescued. A byte of a name that controls a terminal is
/// put as `?`.
pub fn opening_line(
    alloc: Global,
    size: u64,
    infile: &str,
    outfile: &str,
) -> Result<Vec<u8>, NoMemory>
    ensures { IfOk result (λ line. line.items ≡ codes "domain of " ++ decimal size ++ codes " B from "
        ++ map shown_byte infile.now ++ codes " to " ++ map shown_byte outfile.now ++ 10 ∷ []) }
{
    let mut line = Vec::new(alloc);
    add(&mut line, "domain of ")?;
    add(&mut line, Buffer::new().format(size))?;
    add(&mut line, " B from ")?;
    add_name(&mut line, infile)?;
    add(&mut line, " to ")?;
    add_name(&mut line, outfile)?;
    add(&mut line, "\n")?;
    Ok(line)
}

/// Puts a line on standard output, by one put, if there is one and the rescue is heard. Says whether it is heard after
/// that.
pub fn say_line<C: Console>(console: &mut C, line: &Option<Vec<u8>>, heard: bool) -> bool
    ensures { SpeaksOn (out_pieces (lines_in (option_map (λ l. l.items) line.now))) heard result
        (C.state console.old) (C.state console.new) }
{
    if !heard {
        return false;
    }
    match line {
        Some(line) => console.put(Channel::Out, line).is_ok(),
        None => true,
    }
}
