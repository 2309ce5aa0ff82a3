//! The heading of a map that a program makes.
ghost use Rattle.std.specs.Prelude.{◌≡◌, IfOk};
ghost use Rattle.option_words.specs.Words.{command_line};

use block_list::tiles::NoMemory;
use mapfile_text::heading::{Heading, Program};
use option_words::words::Words;
use std::alloc::Global;

/// A heading without times, with the command line: a program's name and the words that it was given.
pub fn make_heading(
    alloc: Global,
    name: &str,
    words: &Words,
    program: Program,
) -> Result<Heading, NoMemory>
    ensures { IfOk result (λ h. h
        ≡ record { program = program; line = command_line name.now words.now; start_s = 0; now_s = 0 }) }
{
    let line = words.command_line(alloc, name)?;
    Heading::new(alloc, program, line.as_str())
}
