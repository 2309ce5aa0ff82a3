//! The line of a read.
ghost use Rattle.std.specs.Prelude.{◌≡◌, ◌+◌, ◌≤◌, ◌++◌, ◌∷◌, []};
ghost use Rattle.std.specs.Fmt.{decimal};
ghost use Rattle.arrayvec.specs.ArrayVec.{array_vec_len};
ghost use Rattle.plan_source.specs.Lines.{line_of_entry};

use arrayvec::ArrayVec;
use faulty_source::journal::ReadEntry;
use itoa::Buffer;

/// A line: three numbers of up to 40 digits, each with a byte after it.
pub(crate) type Line = ArrayVec<u8, 128>;

/// Adds a number and a byte after it.
fn add_number(line: &mut Line, n: u64, end: u8)
    requires { array_vec_len line.old ≤ 82 }
    ensures text { line.new.items ≡ line.old.items ++ decimal n ++ end ∷ [] }
    ensures len { array_vec_len line.new ≤ array_vec_len line.old + 41 }
{
    let _digits_fit = line.try_extend_from_slice(Buffer::new().format(n).as_bytes());
    let _end_fits = line.try_push(end);
}

/// The line of a read: where it begins, how many bytes it asks for, and how many it gets.
pub(crate) fn line_of(entry: &ReadEntry) -> Line
    ensures { result.items ≡ line_of_entry entry.now }
{
    let mut line = Line::new();
    add_number(&mut line, entry.pos, b' ');
    add_number(&mut line, entry.asked as u64, b' ');
    add_number(&mut line, entry.given as u64, b'\n');
    line
}
