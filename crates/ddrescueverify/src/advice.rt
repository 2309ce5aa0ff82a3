//! The line after the message: why an answer came, by the files that the arguments name. After the comparison there
//! may be a line on reads past the kernel's cache.
use crash_site::site::SiteCall;
use ddrescueverify_cli::ending::VerifyEnding;
use ddrescueverify_words::command::{Command, read_command};
use file_source::file::FileSource;
use folder_site::folder::FolderSite;
use option_words::asked::read_asked;
use option_words::words::Words;
use program_advice::cause::{Cause, Fact, Hint, Named, Role, Stream};
use program_advice::direct::cached_line;
use program_advice::files::{open_cause, same_name_cause, stream_cause};
use program_advice::line::{Line, line_of};
use program_advice::mapfile::{line_on_map, line_on_memory};
use program_advice::site::{SiteFiles, fault_cause, find_outfile_use};
use program_advice::usage::{Manual, line_on_words};
use program_promise::operand::Operand;
use std::io;

/// The line of usage.
const USAGE: &str =
    "ddrescueverify [options] infile outfile mapfile; 'man ddrescueverify' lists the options and names the version";

/// What a line on a wrong argument says of this program.
fn manual() -> Manual {
    Manual {
        usage: USAGE,
        option: "an option of this program; 'man ddrescueverify' lists them",
        operand: "a file's name",
    }
}

/// The program's name, which begins its lines.
pub(crate) const PROGRAM: &str = "ddrescueverify";

/// What a file is called that two operands name.
fn role_of(operand: Operand) -> Role {
    match operand {
        Operand::Infile => Role::Infile,
        Operand::Outfile => Role::Outfile,
        Operand::Mapfile => Role::Mapfile,
        Operand::Draft => Role::Draft,
    }
}

/// The mapfile that a command names.
fn named_map<'a>(command: &Command<'a>) -> Named<'a> {
    Named {
        role: Role::Mapfile,
        name: command.mapfile,
    }
}

/// The line on a call on the files that failed. What uses an outfile that is a device in use is looked up.
fn line_on_fault(
    rt: &HostRuntime,
    command: &Command<'_>,
    site: &FolderSite,
    call: SiteCall,
) -> Option<Line> {
    let outfile_use = find_outfile_use(rt, site.trouble(), command.outfile);
    let files = SiteFiles {
        outfile: command.outfile,
        outfile_use: outfile_use.as_ref(),
        mapfile: Some(command.mapfile),
        read: named_map(command),
    };
    let cause = fault_cause(site.trouble(), call, files)?;
    Some(line_of(PROGRAM, cause))
}

/// What helps after the input was lost, if it was, or if someone asked for a stop.
fn lost_hint(source: &FileSource) -> Hint {
    if source.was_stopped() {
        Hint::StoppedComparison
    } else {
        Hint::InputLost
    }
}

/// Why a command that was read ended so, if that helps.
fn cause_of<'a>(
    command: &Command<'a>,
    ending: VerifyEnding,
    source: &FileSource,
    put: Option<io::Error>,
) -> Option<Cause<'a>> {
    let infile = Named {
        role: Role::Infile,
        name: command.infile,
    };
    let outfile = Named {
        role: Role::Outfile,
        name: command.outfile,
    };
    let (file, fact) = match ending {
        VerifyEnding::Done
        | VerifyEnding::Differs { .. }
        | VerifyEnding::Usage(_)
        | VerifyEnding::MapRefused { .. }
        | VerifyEnding::SiteFault { .. }
        | VerifyEnding::NoMemory => return None,
        VerifyEnding::SameName { first, second } => {
            let (first, second) = (role_of(first), role_of(second));
            return Some(same_name_cause(first, second, command.infile, command.outfile));
        }
        VerifyEnding::SourceFault => return open_cause(infile, source.trouble()),
        VerifyEnding::SourceLost => return Some(Cause::Hint(lost_hint(source))),
        VerifyEnding::ConsoleFault => return stream_cause(Stream::Output, put),
        VerifyEnding::NoMap => (named_map(command), Fact::Absent),
        VerifyEnding::NoOutput => (outfile, Fact::Absent),
    };
    Some(Cause::File { file, fact })
}

/// The line that an answer's message is followed by. There is none if the arguments ask that nothing be said, and none
/// for an answer whose message says all. `put` is the error of standard output.
pub fn advise(
    rt: &HostRuntime,
    words: &Words,
    ending: VerifyEnding,
    source: &FileSource,
    site: &FolderSite,
    put: Option<io::Error>,
) -> Option<Line> {
    let command: Command<'_> = match read_asked(rt.alloc(), words) {
        Ok(command) => command,
        Err(refusal) => return line_on_words(PROGRAM, words, refusal, manual()),
    };
    if command.options.quiet {
        return None;
    }
    match ending {
        VerifyEnding::MapRefused { error, .. } => return Some(line_on_map(
            rt,
            PROGRAM,
            named_map(&command),
            error,
        )),
        VerifyEnding::NoMemory => return Some(line_on_memory(rt, PROGRAM, named_map(&command))),
        VerifyEnding::SiteFault { call } => return line_on_fault(rt, &command, site, call),
        _ => {}
    }
    let cause = cause_of(&command, ending, source, put)?;
    Some(line_of(PROGRAM, cause))
}

/// The line after a comparison of which the kernel refused reads past its cache.
pub fn line_after(rt: &HostRuntime, words: &Words, source: &FileSource) -> Option<Line> {
    match read_command(rt.alloc(), words) {
        Ok(command) if !command.options.quiet => cached_line(PROGRAM, source.refused()),
        _ => None,
    }
}
