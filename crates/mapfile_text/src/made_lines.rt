//! The lines of a mapfile as they are printed, made one at a time.
ghost use Rattle.std.specs.Prelude.{◌≡◌, ℕ, ◌+◌, ◌≤◌, ◌^◌, ◌<◌, ◌++◌, [], codes, length};
ghost use Rattle.std.specs.Fmt.{decimal};
ghost use Rattle.arrayvec.specs.ArrayVec.{array_vec_len};
ghost use Rattle.mapfile_text.specs.Printed.{with_newline, program_line, hexadecimal, state_line, block_line};
ghost use Rattle.mapfile_text.specs.LeftOf.{start_line, now_line};

use crate::digits::{short_hexadecimal, write_digits};
use crate::heading::{Heading, Program};
use crate::state::MapState;
use arrayvec::ArrayVec;
use block_list::block::Block;

/// A line. None is longer but the one on the command line, which is never made as a whole.
pub(crate) type Line = ArrayVec<u8, 64>;

/// Appends a text for which there is room.
pub(crate) fn append(line: &mut Line, text: &[u8])
    requires { array_vec_len line.old + length text.now ≤ 64 }
    ensures { line.new.items ≡ line.old.items ++ text.now }
{
    let _fits = line.try_extend_from_slice(text);
}

/// Appends a position or a size of any number of digits.
fn append_long(line: &mut Line, n: u64)
    requires { array_vec_len line.old + 18 ≤ 64 }
    ensures text { line.new.items ≡ line.old.items ++ hexadecimal n }
    ensures len { array_vec_len line.new ≤ array_vec_len line.old + 18 }
{
    let mut digits = [b'0'; 64];
    let begin = write_digits(&mut digits, n, 16).min(56);
    append(line, b"0x");
    append(line, &digits[begin..]);
}

/// Appends a position or a size.
fn append_hexadecimal(line: &mut Line, n: u64)
    requires { array_vec_len line.old + 18 ≤ 64 }
    ensures text { line.new.items ≡ line.old.items ++ hexadecimal n }
    ensures len { array_vec_len line.new ≤ array_vec_len line.old + 18 }
{
    if n < 1 << 32 {
        append(line, &short_hexadecimal(n));
    } else {
        append_long(line, n);
    }
}

fn append_decimal(line: &mut Line, n: u64)
    requires { array_vec_len line.old + 20 ≤ 64 }
    ensures text { line.new.items ≡ line.old.items ++ decimal n }
    ensures len { array_vec_len line.new ≤ array_vec_len line.old + 20 }
{
    let mut digits = [b'0'; 64];
    let begin = write_digits(&mut digits, n, 10);
    append(line, &digits[begin..]);
}

/// Appends the line that names the program.
pub(crate) fn append_program(line: &mut Line, program: Program)
    requires { line.old.items ≡ [] }
    ensures { line.new.items ≡ program_line program }
{
    append(line, b"# Mapfile. Created by ");
    append(line, program.name().as_bytes());
    append(line, b"\n");
}

/// Appends the line of the start time, which only a mapfile of ddrescue has.
pub(crate) fn append_start(line: &mut Line, heading: &Heading)
    requires { line.old.items ≡ [] }
    ensures { line.new.items ≡ start_line heading.now.program heading.now.start_s }
{
    match heading.program() {
        Program::Ddrescue => {
            append(line, b"# Start time:   ");
            append_decimal(line, heading.start_s());
            append(line, b"\n");
        }
        Program::Ddrescuelog => {}
    }
}

/// Appends the line of the current time, which only a mapfile of ddrescue has.
pub(crate) fn append_now(line: &mut Line, heading: &Heading)
    requires { line.old.items ≡ [] }
    ensures { line.new.items ≡ now_line heading.now.program heading.now.now_s }
{
    match heading.program() {
        Program::Ddrescue => {
            append(line, b"# Current time: ");
            append_decimal(line, heading.now_s());
            append(line, b"\n");
        }
        Program::Ddrescuelog => {}
    }
}

/// Appends the status line.
pub(crate) fn append_state(line: &mut Line, state: MapState)
    requires { line.old.items ≡ [] }
    ensures { line.new.items ≡ state_line state }
{
    append_hexadecimal(line, state.pos);
    append(line, b"     ");
    line.push(state.current.symbol());
    append(line, b"               ");
    append_decimal(line, u64::from(state.pass));
    append(line, b"\n");
}

/// Appends the line of a block.
pub(crate) fn append_block(line: &mut Line, block: Block)
    requires { line.old.items ≡ [] }
    ensures { line.new.items ≡ block_line block }
{
    append_hexadecimal(line, block.pos);
    append(line, b"  ");
    append_hexadecimal(line, block.size);
    append(line, b"  ");
    line.push(block.status.symbol());
    append(line, b"\n");
}
