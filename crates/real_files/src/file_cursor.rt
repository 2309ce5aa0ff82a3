//! Reading and writing at a place of a file, whole or as far as it goes.
ghost use Rattle.std.specs.Prelude.{◌≡◌, ◌≢◌, ◌⊎◌, ◌-◌, ◌≤◌, length, take, OnOk, IfOk, IfErr};
ghost use Rattle.std.specs.Io.KnownBytes.{Appends, Consumes, IsAtEnd};
ghost use Rattle.std.specs.IoError.{error_kind};

use std::io::{self, ErrorKind, Read, Write};
use std::os::unix::fs::FileExt;

/// A place of a file, from which reads and writes go on. Each is one call of the system.
#[derive(Drop)]
pub struct FileCursor<'a, F: FileExt> {
    file: &'a F,
    pos: u64,
}

impl<'a, F: FileExt> FileCursor<'a, F> {
    /// The place at a position from the file's start.
    pub fn new(file: &'a F, pos: u64) -> FileCursor<'a, F> {
        FileCursor { file, pos }
    }
}

impl<'a, F: FileExt> Read for FileCursor<'a, F> {
    fn read(&mut self, buf: &mut [u8]) -> io::Result<usize> {
        let n = self.file.read_at(buf, self.pos)?;
        self.pos = self.pos.saturating_add(n as u64);
        Ok(n)
    }
}

impl<'a, F: FileExt> Write for FileCursor<'a, F> {
    fn write(&mut self, buf: &[u8]) -> io::Result<usize> {
        let n = self.file.write_at(buf, self.pos)?;
        self.pos = self.pos.saturating_add(n as u64);
        Ok(n)
    }

    fn flush(&mut self) -> io::Result<()> {
        Ok(())
    }
}

/// How far reads filled a buffer, and why they ended there.
#[derive(Drop)]
pub struct Filled {
    /// How many bytes came, at the buffer's front.
    pub got: usize,
    /// The error of the read that failed.
    pub outcome: io::Result<()>,
}

/// Reads until the buffer is full, the bytes end or a read fails. One that is interrupted is made again.
pub fn fill<R: Read>(reader: &mut R, buf: &mut [u8]) -> Filled
    ensures count { result.got ≤ length buf.old }
    ensures same { length buf.new ≡ length buf.old }
    ensures came { Consumes (R.remaining reader.old) (R.remaining reader.new) (take result.got buf.new) }
    ensures end { OnOk result.outcome ((result.got ≡ length buf.old) ⊎ IsAtEnd (R.remaining reader.new)) }
    ensures again { IfErr result.outcome (λ e. error_kind e ≢ ErrorKind.Interrupted) }
{
    let mut got = 0;
    for _ in 0..u64::MAX {
        if got >= buf.len() {
            break;
        }
        match reader.read(&mut buf[got..]) {
            Ok(0) => {
                return Filled {
                    got,
                    outcome: Ok(()),
                };
            }
            Ok(n) => got += n,
            Err(e) if e.kind() == ErrorKind::Interrupted => {}
            Err(e) => {
                return Filled {
                    got,
                    outcome: Err(e),
                };
            }
        }
    }
    let outcome = if got >= buf.len() {
        Ok(())
    } else {
        Err(io::Error::from(ErrorKind::TimedOut))
    };
    Filled { got, outcome }
}

/// Reads until the buffer is full or the bytes end.
pub fn read_full<R: Read>(reader: &mut R, buf: &mut [u8]) -> io::Result<usize>
    ensures count { IfOk result (λ n. n ≤ length buf.old) }
    ensures came { IfOk result (λ n. Consumes (R.remaining reader.old) (R.remaining reader.new) (take n buf.new)) }
    ensures end { IfOk result (λ n. (n ≡ length buf.old) ⊎ IsAtEnd (R.remaining reader.new)) }
    ensures again { IfErr result (λ e. error_kind e ≢ ErrorKind.Interrupted) }
{
    let Filled { got, outcome } = fill(reader, buf);
    outcome?;
    Ok(got)
}

/// Writes a whole piece. A write that is interrupted is made again, and one that takes nothing is an error.
pub fn put<W: Write>(writer: &mut W, piece: &[u8]) -> io::Result<()>
    ensures { OnOk result (Appends (W.contents writer.old) (W.contents writer.new) piece.now) }
{
    writer.write_all(piece)
}
