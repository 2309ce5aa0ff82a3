//! The line after the message: why an answer came, by the file that the arguments name. After the search there may
//! be a line on reads past the kernel's cache.
use ddrescuepart_cli::ending::PartEnding;
use ddrescuepart_words::command::{Command, read_command};
use file_source::file::FileSource;
use option_words::asked::read_asked;
use option_words::words::Words;
use partition_domain::stop::Refusal;
use program_advice::cause::{Cause, Hint, Named, Role, Stream};
use program_advice::direct::cached_line;
use program_advice::files::{open_cause, stream_cause};
use program_advice::line::{Line, line_of};
use program_advice::usage::{Manual, line_on_words};
use std::io;

/// What a line on a wrong argument says of this program.
fn manual() -> Manual {
    Manual {
        usage: "ddrescuepart [-q] infile number; 'man ddrescuepart' lists the options and names the version",
        option: "an option of this program; 'man ddrescuepart' lists them",
        operand: "a file's name, or the number of a partition from 1 to 132",
    }
}

/// The program's name, which begins its lines.
const PROGRAM: &str = "ddrescuepart";

/// What helps if what was read gives no partition.
fn refusal_hint(refusal: Refusal) -> Hint {
    match refusal {
        Refusal::Unread { .. } | Refusal::NoSignature { .. } => Hint::NoTable,
        Refusal::Protective => Hint::OtherTable,
        Refusal::NoPartition | Refusal::ChainTooLong => Hint::NoPartition,
    }
}

/// Why a search ended so, if that helps.
fn cause_of<'a>(
    infile: Named<'a>,
    ending: PartEnding,
    source: &FileSource,
    put: Option<io::Error>,
) -> Option<Cause<'a>> {
    let hint = match ending {
        PartEnding::Done | PartEnding::Usage(_) => return None,
        PartEnding::SourceFault => return open_cause(infile, source.trouble()),
        PartEnding::ConsoleFault => return stream_cause(Stream::Output, put),
        PartEnding::SourceLost if source.was_stopped() => Hint::StoppedSearch,
        PartEnding::SourceLost => Hint::InputLost,
        PartEnding::Refused(refusal) => refusal_hint(refusal),
        PartEnding::NoMemory => Hint::NoMemory,
    };
    Some(Cause::Hint(hint))
}

/// The line that an answer's message is followed by. There is none if the arguments ask that nothing be said, and none
/// for an answer whose message says all. `put` is the error of standard output.
pub fn advise(
    rt: &HostRuntime,
    words: &Words,
    ending: PartEnding,
    source: &FileSource,
    put: Option<io::Error>,
) -> Option<Line> {
    let command: Command<'_> = match read_asked(rt.alloc(), words) {
        Ok(command) => command,
        Err(refusal) => return line_on_words(PROGRAM, words, refusal, manual()),
    };
    if command.quiet {
        return None;
    }
    let infile = Named {
        role: Role::Infile,
        name: command.infile,
    };
    let cause = cause_of(infile, ending, source, put)?;
    Some(line_of(PROGRAM, cause))
}

/// The line after a search of which the kernel refused reads past its cache.
pub fn line_after(rt: &HostRuntime, words: &Words, source: &FileSource) -> Option<Line> {
    match read_command(rt.alloc(), words) {
        Ok(command) if !command.quiet => cached_line(PROGRAM, source.refused()),
        _ => None,
    }
}
