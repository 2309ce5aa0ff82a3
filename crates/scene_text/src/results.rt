//! What came of a run of one of the programs.
use crate::refusal::Refusal;
use crate::shown::append_lines;
use crash_site::site::SiteCall;
use faulty_source::journal::ReadEntry;
use memory_console::memory::MemoryConsole;
use memory_site::memory::MemorySite;
use rescue_console::console::Channel;
use std::fmt::Debug;
use std::io::Write;

/// Adds a line of reads, if there are any.
pub fn append_reads(out: &mut Vec<u8>, reads: &[ReadEntry]) -> Result<(), Refusal> {
    if reads.is_empty() {
        return Ok(());
    }
    let count = reads.len();
    write!(out, "  reads {count}:")?;
    for read in reads {
        let ReadEntry {
            pos,
            asked,
            given,
            ended,
        } = *read;
        write!(out, " ({pos},{asked})->{given}")?;
        if ended {
            out.extend_from_slice(b" ended")?;
        }
    }
    out.push(b'\n')?;
    Ok(())
}

/// Adds a line of the calls from a number on, if there are any.
pub fn append_calls(out: &mut Vec<u8>, site: &MemorySite, before: usize) -> Result<(), Refusal> {
    let made = site.made();
    if made <= before {
        return Ok(());
    }
    let count = made - before;
    write!(out, "  calls {count}:")?;
    let mut last: Option<(SiteCall, usize)> = None;
    for i in before..made {
        last = Some(append_call(out, last, site.call(i))?);
    }
    if let Some((_, times)) = last {
        append_times(out, times)?;
    }
    out.push(b'\n')?;
    Ok(())
}

/// Adds a call, unless it is equal to the last one. Answers the call, and how many equal ones there are by now.
fn append_call(
    out: &mut Vec<u8>,
    last: Option<(SiteCall, usize)>,
    call: SiteCall,
) -> Result<(SiteCall, usize), Refusal> {
    match last {
        Some((name, times)) if name == call => return Ok((call, times.saturating_add(1))),
        Some((_, times)) => append_times(out, times)?,
        None => {}
    }
    write!(out, " {call:?}")?;
    Ok((call, 1))
}

fn append_times(out: &mut Vec<u8>, times: usize) -> Result<(), Refusal> {
    if times > 1 {
        write!(out, "*{times}")?;
    }
    Ok(())
}

/// Adds what was put on a console.
pub fn append_console(out: &mut Vec<u8>, console: &MemoryConsole) -> Result<(), Refusal> {
    append_lines(out, console.text(Channel::Out), b"  out", b"  out~")?;
    append_lines(out, console.text(Channel::Err), b"  err", b"  err~")
}

/// Adds the line of an answer and its exit status.
pub fn append_ending<E: Debug>(out: &mut Vec<u8>, ending: &E, status: u8) -> Result<(), Refusal> {
    writeln!(out, "  ends {ending:?}, status {status}")?;
    Ok(())
}
