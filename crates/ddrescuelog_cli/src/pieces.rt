//! Prints texts on standard output in pieces, through one buffer of 4,096 bytes.
ghost use Rattle.std.specs.Prelude.{◌≡◌, ◌<◌, ◌≤◌, false, length, is_ok, OnOk, OnErr};
ghost use Rattle.ddrescuelog_cli.specs.Printing.{Adds, PutsPieces};
ghost use Rattle.ddrescuelog_cli.specs.Steps.{printed_as};

use crate::ending::LogEnding;
use arrayvec::ArrayVec;
use rescue_console::console::{Channel, Console, ConsoleFault};

/// How many bytes a text is put by.
pub(crate) const PIECE: usize = 4096;

/// A beginning of a text that wasn't put yet.
pub(crate) type Buffer = ArrayVec<u8, PIECE>;

/// Puts a piece of a text.
fn put_piece<P: Console>(console: &mut P, piece: &[u8]) -> Result<(), ConsoleFault>
    requires some { 0 < length piece.now }
    requires short { length piece.now ≤ 4096 }
    ensures { PutsPieces piece.now (is_ok result) (P.state console.old) (P.state console.new) }
{
    console.put(Channel::Out, piece)
}

/// Adds a line to a text, and puts the buffer first where it has no room for that.
pub(crate) fn add_line<P: Console>(
    console: &mut P,
    buffer: &mut Buffer,
    line: &[u8],
) -> Result<(), ConsoleFault>
    requires { length line.now ≤ 4096 }
    ensures added { OnOk result (Adds line.now buffer.old.items buffer.new.items
        (P.state console.old) (P.state console.new)) }
    ensures fault { OnErr result (PutsPieces buffer.old.items false (P.state console.old) (P.state console.new)) }
{
    if buffer.remaining_capacity() < line.len() {
        put_piece(console, buffer.as_slice())?;
        buffer.clear();
    }
    let _fits = buffer.try_extend_from_slice(line);
    Ok(())
}

/// Puts what is left of a text in the buffer, if there is any.
pub(crate) fn put_rest<P: Console>(console: &mut P, buffer: &Buffer) -> Result<(), ConsoleFault>
    ensures { PutsPieces buffer.now.items (is_ok result) (P.state console.old) (P.state console.new) }
{
    if buffer.is_empty() {
        return Ok(());
    }
    put_piece(console, buffer.as_slice())
}

/// The answer of a mode whose text was put.
pub(crate) fn printed(put: Result<(), ConsoleFault>) -> LogEnding
    ensures { result ≡ printed_as put }
{
    match put {
        Ok(()) => LogEnding::Done,
        Err(ConsoleFault) => LogEnding::ConsoleFault,
    }
}
