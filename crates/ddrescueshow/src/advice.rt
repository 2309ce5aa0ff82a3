//! The line after the message: why an answer came, by the files that the arguments name.
use ddrescueshow_cli::ending::{ShowEnding, Which};
use ddrescueshow_cli::follow::FollowEnding;
use ddrescueshow_words::command::Command;
use folder_site::folder::FolderSite;
use option_words::asked::read_asked;
use option_words::words::Words;
use program_advice::cause::{Cause, Fact, Hint, Named, Role, Stream};
use program_advice::files::stream_cause;
use program_advice::line::{Line, line_of};
use program_advice::mapfile::{line_on_map, line_on_memory};
use program_advice::site::{SiteFiles, fault_cause};
use program_advice::usage::{Manual, line_on_words};
use std::io;

/// What a line on a wrong argument says of this program.
fn manual() -> Manual {
    Manual {
        usage: "ddrescueshow [options] mapfile; 'man ddrescueshow' lists the options and names the version",
        option: "an option of this program; 'man ddrescueshow' lists them",
        operand: "a file's name",
    }
}

/// The program's name, which begins its lines.
const PROGRAM: &str = "ddrescueshow";

/// A map that a command names.
fn named_map<'a>(command: &Command<'a>, which: Which) -> Named<'a> {
    match which {
        Which::DomainMap => Named {
            role: Role::DomainMap,
            name: command.domain_map.unwrap_or(""),
        },
        Which::RunMap => Named {
            role: Role::Mapfile,
            name: command.mapfile,
        },
    }
}

/// The files that a command's calls reach.
fn files_of<'a>(command: &Command<'a>, site: &FolderSite) -> SiteFiles<'a> {
    let which = if site.is_unread(command.mapfile) {
        Which::RunMap
    } else {
        Which::DomainMap
    };
    SiteFiles {
        outfile: "",
        outfile_use: None,
        mapfile: Some(command.mapfile),
        read: named_map(command, which),
    }
}

/// Why a command that was read ended so, if that helps.
fn cause_of<'a>(
    command: &Command<'a>,
    ending: ShowEnding,
    site: &FolderSite,
    put: Option<io::Error>,
) -> Option<Cause<'a>> {
    let (file, fact) = match ending {
        ShowEnding::Done
        | ShowEnding::Usage(_)
        | ShowEnding::TooManyCells
        | ShowEnding::MapRefused { .. }
        | ShowEnding::NoMemory => return None,
        ShowEnding::SiteFault { call } => {
            let files = files_of(command, site);
            return fault_cause(site.trouble(), call, files);
        }
        ShowEnding::ConsoleFault => return stream_cause(Stream::Output, put),
        ShowEnding::NoMap(which) => (named_map(command, which), Fact::Absent),
    };
    Some(Cause::File { file, fact })
}

/// The line that an answer's message is followed by. There is none if the arguments ask that nothing be said, and none
/// for an answer whose message says all. `put` is the error of standard output.
pub fn advise(
    rt: &HostRuntime,
    words: &Words,
    ending: ShowEnding,
    site: &FolderSite,
    put: Option<io::Error>,
) -> Option<Line> {
    let command: Command<'_> = match read_asked(rt.alloc(), words) {
        Ok(command) => command,
        Err(refusal) => return line_on_words(PROGRAM, words, refusal, manual()),
    };
    if command.options.quiet {
        return None;
    }
    match ending {
        ShowEnding::MapRefused { which, error } => return Some(line_on_map(
            rt,
            PROGRAM,
            named_map(&command, which),
            error,
        )),
        ShowEnding::NoMemory => return Some(line_on_memory(
            rt,
            PROGRAM,
            named_map(&command, Which::RunMap),
        )),
        _ => {}
    }
    let cause = cause_of(&command, ending, site, put)?;
    Some(line_of(PROGRAM, cause))
}

/// The line to print after the message of a call that follows a rescue, if a line helps. `fed` and `put` are the
/// errors of standard input and output. A `terminal` as output can't be written once it is closed, and the message says
/// all.
pub fn advise_follower(
    ending: FollowEnding,
    fed: Option<io::Error>,
    put: Option<io::Error>,
    terminal: bool,
) -> Option<Line> {
    let cause = match ending {
        FollowEnding::Done | FollowEnding::NotAlone => return None,
        FollowEnding::ConsoleFault if terminal => return None,
        FollowEnding::FeedFault => stream_cause(Stream::Input, fed)?,
        FollowEnding::ConsoleFault => stream_cause(Stream::Output, put)?,
        FollowEnding::NoMemory => Cause::Hint(Hint::NoMemory),
    };
    Some(line_of(PROGRAM, cause))
}
