//! Standard streams that are closed when a program begins.
use std::fs::{File, OpenOptions};
use std::io;
use std::os::fd::{AsRawFd, IntoRawFd};

/// How many standard streams there are; their numbers are the first.
const STREAMS: i32 = 3;

/// The number of standard input.
const INPUT: i32 = 0;

/// A file that gives nothing, and drops what is written to it.
const NOWHERE: &str = "/dev/null";

/// What a standard stream is taken for that was closed when the program began.
#[derive(Clone, Copy, Debug, PartialEq, Eq)]
pub enum ClosedStream {
    /// The stream leads nowhere: nothing comes in, and what is put is dropped.
    Silent,
    /// Each take and each put fails.
    Faulty,
}

/// Opens a file for the stream with the lowest number that isn't open.
fn open_stream(rt: &HostRuntime, reads: bool, writes: bool) -> io::Result<File> {
    OpenOptions::new()
        .read(reads)
        .write(writes)
        .open(rt, NOWHERE)
}

/// Opens the standard streams that are closed, so that no file gets the number of one and what is printed to it.
/// A stream that fails is open the wrong way round: standard input for writing alone, and the others for reading.
///
/// # Errors
///
/// If `/dev/null` can't be opened.
pub fn fill_streams(rt: &HostRuntime, closed: ClosedStream) -> io::Result<()> {
    for _ in 0..STREAMS {
        let null = open_stream(rt, true, true)?;
        let number = null.as_raw_fd();
        if number >= STREAMS {
            break;
        }
        match closed {
            ClosedStream::Silent => {
                let _ = null.into_raw_fd();
            }
            ClosedStream::Faulty => {
                drop(null);
                let stream = open_stream(rt, number != INPUT, number == INPUT)?;
                let _ = stream.into_raw_fd();
            }
        }
    }
    Ok(())
}
