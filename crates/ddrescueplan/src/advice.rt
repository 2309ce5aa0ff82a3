//! The line after the message: why an answer came, by the file that the arguments name.
use ddrescueplan_cli::ending::PlanEnding;
use ddrescueplan_words::command::Command;
use folder_site::folder::FolderSite;
use option_words::asked::read_asked;
use option_words::words::Words;
use program_advice::cause::{Cause, Fact, Hint, Named, Role, Stream};
use program_advice::files::stream_cause;
use program_advice::line::{Line, line_of};
use program_advice::mapfile::line_on_map;
use program_advice::site::{SiteFiles, fault_cause};
use program_advice::usage::{Manual, line_on_words};
use std::io;

/// What a line on a wrong argument says of this program.
fn manual() -> Manual {
    Manual {
        usage: "ddrescueplan [options] length testmap; 'man ddrescueplan' lists the options and names the version",
        option: "an option of this program; 'man ddrescueplan' lists them",
        operand: "a length up to 1Ti (4Ki is 4096, 4k is 4000), or a file's name",
    }
}

/// The program's name, which begins its lines.
pub(crate) const PROGRAM: &str = "ddrescueplan";

/// Why a plan ended so, if that helps.
fn cause_of<'a>(
    read: Named<'a>,
    ending: PlanEnding,
    site: &FolderSite,
    put: Option<io::Error>,
) -> Option<Cause<'a>> {
    let files = SiteFiles {
        outfile: "",
        outfile_use: None,
        mapfile: None,
        read,
    };
    match ending {
        PlanEnding::Done | PlanEnding::Usage(_) | PlanEnding::MapRefused { .. } => None,
        PlanEnding::SiteFault { call } => fault_cause(site.trouble(), call, files),
        PlanEnding::ConsoleFault => stream_cause(Stream::Output, put),
        PlanEnding::NoMemory => Some(Cause::Hint(Hint::NoMemory)),
        PlanEnding::NoMap => Some(Cause::File {
            file: read,
            fact: Fact::Absent,
        }),
    }
}

/// The line that an answer's message is followed by. There is none if the arguments ask that nothing be said, and none
/// for an answer whose message says all. `put` is the error of standard output.
pub fn advise(
    rt: &HostRuntime,
    words: &Words,
    ending: PlanEnding,
    site: &FolderSite,
    put: Option<io::Error>,
) -> Option<Line> {
    let command: Command<'_> = match read_asked(rt.alloc(), words) {
        Ok(command) => command,
        Err(refusal) => return line_on_words(PROGRAM, words, refusal, manual()),
    };
    if command.options.rescue.quiet {
        return None;
    }
    let read = Named {
        role: Role::TestMap,
        name: command.test_map,
    };
    if let PlanEnding::MapRefused { error } = ending {
        return Some(line_on_map(rt, PROGRAM, read, error));
    }
    let cause = cause_of(read, ending, site, put)?;
    Some(line_of(PROGRAM, cause))
}
