//! The line after the message: why an answer came, by the files that the arguments name.
use ddrescuelog_cli::ending::{LogEnding, Which};
use ddrescuelog_words::command::Command;
use folder_site::folder::FolderSite;
use option_words::asked::read_asked;
use option_words::words::Words;
use program_advice::cause::{Cause, Fact, Hint, Named, Role, Stream};
use program_advice::files::stream_cause;
use program_advice::line::{Line, line_of};
use program_advice::mapfile::{line_on_map, line_on_memory};
use program_advice::site::{SiteFiles, fault_cause};
use program_advice::usage::{Manual, line_on_words};
use std::io;

/// The line of usage.
const USAGE: &str =
    "ddrescuelog [options] mapfile, with one mode; 'man ddrescuelog' lists the options and names the version";

/// What a line on a wrong argument says of this program.
fn manual() -> Manual {
    Manual {
        usage: USAGE,
        option: "an option of this program; 'man ddrescuelog' lists them, and what replaces GNU's other options",
        operand: "a file's name",
    }
}

/// The program's name, which begins its lines.
const PROGRAM: &str = "ddrescuelog";

/// A map that a command names.
fn named_map<'a>(command: &Command<'a>, which: Which) -> Named<'a> {
    match which {
        Which::DomainMap => Named {
            role: Role::DomainMap,
            name: command.domain_map.unwrap_or(""),
        },
        Which::OtherMap => Named {
            role: Role::OtherMap,
            name: command.other.unwrap_or(""),
        },
        Which::RunMap => Named {
            role: Role::Mapfile,
            name: command.mapfile,
        },
    }
}

/// The map that couldn't be read.
fn unread_map<'a>(command: &Command<'a>, site: &FolderSite) -> Named<'a> {
    let run = named_map(command, Which::RunMap);
    let other = named_map(command, Which::OtherMap);
    if site.is_unread(run.name) {
        run
    } else if command.other.is_some() && site.is_unread(other.name) {
        other
    } else {
        named_map(command, Which::DomainMap)
    }
}

/// The files that a command's calls reach.
fn files_of<'a>(command: &Command<'a>, site: &FolderSite) -> SiteFiles<'a> {
    SiteFiles {
        outfile: "",
        outfile_use: None,
        mapfile: Some(command.mapfile),
        read: unread_map(command, site),
    }
}

/// Why a command that was read ended so, if that helps.
fn cause_of<'a>(
    command: &Command<'a>,
    ending: LogEnding,
    site: &FolderSite,
    fed: Option<io::Error>,
    put: Option<io::Error>,
) -> Option<Cause<'a>> {
    let (file, fact) = match ending {
        LogEnding::Done
        | LogEnding::NotDone
        | LogEnding::Differ
        | LogEnding::Usage(_)
        | LogEnding::ListTooLong
        | LogEnding::MapRefused { .. }
        | LogEnding::NoMemory => return None,
        LogEnding::BadNumber { .. } => return Some(Cause::Hint(Hint::BlockNumbers)),
        LogEnding::SiteFault { call } => {
            let files = files_of(command, site);
            return fault_cause(site.trouble(), call, files);
        }
        LogEnding::FeedFault => return stream_cause(Stream::Input, fed),
        LogEnding::ConsoleFault => return stream_cause(Stream::Output, put),
        LogEnding::Exists => (named_map(command, Which::RunMap), Fact::Exists),
        LogEnding::NoMap(which) => (named_map(command, which), Fact::Absent),
    };
    Some(Cause::File { file, fact })
}

/// The line that an answer's message is followed by. There is none if the arguments ask that nothing be said, and none
/// for an answer whose message says all. `fed` and `put` are the errors of the standard streams.
pub fn advise(
    rt: &HostRuntime,
    words: &Words,
    ending: LogEnding,
    site: &FolderSite,
    fed: Option<io::Error>,
    put: Option<io::Error>,
) -> Option<Line> {
    let command: Command<'_> = match read_asked(rt.alloc(), words) {
        Ok(command) => command,
        Err(refusal) => return line_on_words(PROGRAM, words, refusal, manual()),
    };
    if command.options.quiet {
        return None;
    }
    match ending {
        LogEnding::MapRefused { which, error } => return Some(line_on_map(
            rt,
            PROGRAM,
            named_map(&command, which),
            error,
        )),
        LogEnding::NoMemory => return Some(line_on_memory(
            rt,
            PROGRAM,
            named_map(&command, Which::RunMap),
        )),
        _ => {}
    }
    let cause = cause_of(&command, ending, site, fed, put)?;
    Some(line_of(PROGRAM, cause))
}
