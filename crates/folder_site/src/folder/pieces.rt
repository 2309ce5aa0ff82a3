//! Pieces of a file: read from a place on, and written at one, by one call or by several short ones.
ghost use Rattle.std.specs.Prelude.{◌≡◌, ◌+◌, ◌<◌, ◌≤◌, ◌^◌, length, IsTrue, OnOk, OnErr, IfOk};
ghost use Rattle.kernel_files.specs.Answers.{bytes_at};
ghost use Rattle.kernel_files.specs.Steps.{MadeBy};
ghost use Rattle.kernel_files.specs.ImageCalls.{Writes};
ghost use Rattle.folder_site.specs.Pieces.{left_of, IsWholeRead, WritesOne, BreaksOneWrite, BreaksWriteAt};

use kernel_files::kernel::Kernel;
use real_files::file_cursor::{Filled, fill};
use std::io::{self, ErrorKind, Read};

/// A place of a file, from which reads go on. Each is one call of the kernel.
#[derive(Drop)]
pub(super) struct KernelCursor<'a, K: Kernel> {
    kernel: &'a K,
    file: &'a K::Open,
    pos: u64,
}

impl<'a, K: Kernel> KernelCursor<'a, K> {
    /// The place at a position from the file's start.
    pub fn new(kernel: &'a K, file: &'a K::Open, pos: u64) -> KernelCursor<'a, K>
        ensures { ⟦<KernelCursor<'a, K> as Read>⟧.remaining result
            ≡ left_of (K.told kernel.now) (K.number file.now) pos }
    {
        KernelCursor { kernel, file, pos }
    }
}

impl<'a, K: Kernel> Read for KernelCursor<'a, K> {
    ghost remaining = { λ c. left_of (K.told c.kernel.now) (K.number c.file.now) c.pos };

    fn read(&mut self, buf: &mut [u8]) -> io::Result<usize> {
        let count = self.kernel.read_at(self.file, self.pos, buf)?;
        let Some(end) = self.pos.checked_add(count as u64) else {
            return Err(ErrorKind::InvalidInput.into());
        };
        self.pos = end;
        Ok(count)
    }
}

/// Reads at a place of a file, as many bytes as there are and as the buffer takes.
pub(super) fn read_whole<K: Kernel>(
    kernel: &K,
    file: &K::Open,
    pos: u64,
    buf: &mut [u8],
) -> io::Result<usize>
    ensures count { IfOk result (λ n. n ≤ length buf.old) }
    ensures read { IfOk result (λ n. IsTrue (K.told kernel.now).tells
        → IsWholeRead (bytes_at (K.told kernel.now) (K.number file.now)) pos (length buf.old) buf.new n) }
{
    let Filled { got, outcome } = fill(&mut KernelCursor::new(kernel, file, pos), buf);
    outcome?;
    Ok(got)
}

/// Writes some front of a piece at a place, and gives the rest. A write that is interrupted wrote nothing, and one that
/// takes nothing is an error.
fn write_some<'a, K: Kernel>(
    kernel: &mut K,
    file: &K::Open,
    at: u64,
    piece: &'a [u8],
) -> io::Result<&'a [u8]>
    ensures within { IfOk result (λ rest. length rest.now ≤ length piece.now) }
    ensures ok { IfOk result (λ rest. MadeBy (WritesOne (K.number file.now) at piece.now rest.now)
        (K.told kernel.old) (K.told kernel.new)) }
    ensures err { OnErr result (MadeBy (BreaksOneWrite (K.number file.now) at piece.now)
        (K.told kernel.old) (K.told kernel.new)) }
{
    match kernel.write_at(file, at, piece) {
        Ok(0) => Err(ErrorKind::WriteZero.into()),
        Ok(count) => Ok(&piece[count..]),
        Err(error) if error.kind() == ErrorKind::Interrupted => Ok(piece),
        Err(error) => Err(error),
    }
}

/// Writes a piece at a place, whole.
pub(super) fn write_whole<K: Kernel>(
    kernel: &mut K,
    file: &K::Open,
    pos: u64,
    piece: &[u8],
) -> io::Result<()>
    requires { pos + length piece.now < 2 ^ 63 }
    ensures ok { OnOk result (MadeBy (Writes (K.number file.now) pos piece.now)
        (K.told kernel.old) (K.told kernel.new)) }
    ensures err { OnErr result (MadeBy (BreaksWriteAt (K.number file.now) pos piece.now)
        (K.told kernel.old) (K.told kernel.new)) }
{
    let end = pos + piece.len() as u64;
    let mut rest = piece;
    for _ in 0..u64::MAX {
        if rest.is_empty() {
            return Ok(());
        }
        rest = write_some(kernel, file, end - rest.len() as u64, rest)?;
    }
    Err(ErrorKind::TimedOut.into())
}
