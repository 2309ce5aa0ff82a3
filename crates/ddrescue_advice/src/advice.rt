//! The line after the message: why an answer came, by the files that the arguments name. After the run there may be
//! a line on reads past the kernel's cache.
use crash_site::site::SiteCall;
use ddrescue_words::command::{Command, Task, read_command};
use file_source::file::FileSource;
use folder_site::folder::FolderSite;
use option_words::asked::read_asked;
use option_words::words::Words;
use program_advice::cause::{Cause, Fact, Hint, LimitOption, Named, Role};
use program_advice::direct::cached_line;
use program_advice::files::{open_cause, same_name_cause};
use program_advice::left::left_by;
use program_advice::line::{Line, line_of};
use program_advice::mapfile::{line_on_map, line_on_memory};
use program_advice::site::{SiteFiles, fault_cause, find_outfile_use};
use program_advice::usage::{Manual, line_on_words};
use program_promise::operand::Operand;
use rescue_rules::stop::Limit;
use task_files::checked::PROGRAM;
use task_files::ending::{Ending, Which};

/// What a line on a wrong argument says of this program.
fn manual() -> Manual {
    Manual {
        usage: "ddrescue [options] infile outfile [mapfile]; 'man ddrescue' lists the options and names the version",
        option: "an option of this program; 'man ddrescue' lists them, and what replaces GNU's others (-d: start ddrescuerun)",
        operand: "a file's name",
    }
}

/// What a file is called that two operands name.
fn role_of(operand: Operand) -> Role {
    match operand {
        Operand::Infile => Role::Infile,
        Operand::Outfile => Role::Outfile,
        Operand::Mapfile => Role::Mapfile,
        Operand::Draft => Role::Draft,
    }
}

/// A mapfile that a command names.
fn named_map<'a>(command: &Command<'a>, which: Which) -> Named<'a> {
    let (role, name) = match which {
        Which::DomainMap => (Role::DomainMap, command.domain_map),
        Which::TestMap => (Role::TestMap, command.test_map),
        Which::RunMap => (Role::Mapfile, command.mapfile),
    };
    Named {
        role,
        name: name.unwrap_or(""),
    }
}

/// The mapfile that couldn't be read.
fn unread_map<'a>(command: &Command<'a>, site: &FolderSite) -> Named<'a> {
    let domain = named_map(command, Which::DomainMap);
    let test = named_map(command, Which::TestMap);
    if command.domain_map.is_some() && site.is_unread(domain.name) {
        domain
    } else if command.test_map.is_some() && site.is_unread(test.name) {
        test
    } else {
        named_map(command, Which::RunMap)
    }
}

/// The line on a call on the files that failed. What uses an outfile that is a device in use is looked up.
fn line_on_fault(
    rt: &HostRuntime,
    command: &Command<'_>,
    site: &FolderSite,
    call: SiteCall,
) -> Option<Line> {
    let outfile_use = find_outfile_use(rt, site.trouble(), command.outfile);
    let files = SiteFiles {
        outfile: command.outfile,
        outfile_use: outfile_use.as_ref(),
        mapfile: command.mapfile,
        read: unread_map(command, site),
    };
    let cause = fault_cause(site.trouble(), call, files)?;
    Some(line_of(PROGRAM, cause))
}

/// Which limit a run met, and whether the same command resumes the rescue.
fn limit_cause<'a>(limit: Limit, resumes: bool) -> Cause<'a> {
    let option = match limit {
        Limit::TooManyErrors(_) => LimitOption::ReadErrors,
        Limit::TooManyAreas(_) => LimitOption::BadAreas,
        Limit::TimedOut(_) => LimitOption::Timeout,
    };
    Cause::Limit { option, resumes }
}

/// What helps after the input was lost, if it was, or if someone asked for a stop.
fn lost_hint(command: &Command<'_>, source: &FileSource) -> Hint {
    if !source.was_stopped() {
        Hint::InputLost
    } else if command.mapfile.is_some() {
        Hint::StoppedRescue
    } else {
        Hint::StoppedWithoutMap
    }
}

/// What a rescue that is done left, by its last line, if it left anything.
fn left_cause<'a>(command: &Command<'a>, source: &FileSource, last: &[u8]) -> Option<Cause<'a>> {
    let options = &command.options;
    if options.fill.is_some() || options.generate {
        return None;
    }
    let bytes = left_by(last)?;
    if bytes == 0 {
        return None;
    }
    Some(Cause::Left {
        bytes,
        skips: !options.passes.trims || !options.passes.scrapes,
        loses_neighbors: source.loses_neighbors(),
    })
}

/// Why a command that was read ended so, if that helps.
fn cause_of<'a>(
    command: &Command<'a>,
    role: Role,
    ending: Ending,
    source: &FileSource,
    last: &[u8],
) -> Option<Cause<'a>> {
    let infile = Named {
        role,
        name: command.infile,
    };
    let outfile = Named {
        role: Role::Outfile,
        name: command.outfile,
    };
    let (file, fact) = match ending {
        Ending::Usage(_)
        | Ending::PatternUnread
        | Ending::MapRefused { .. }
        | Ending::SiteFault { .. } => return None,
        Ending::Done => return left_cause(command, source, last),
        Ending::SameName { first, second } => {
            let (first, second) = (role_of(first), role_of(second));
            return Some(same_name_cause(first, second, command.infile, command.outfile));
        }
        Ending::SourceFault => return open_cause(infile, source.trouble()),
        Ending::SourceLost => return Some(Cause::Hint(lost_hint(command, source))),
        Ending::LimitMet(limit) => return Some(limit_cause(limit, command.mapfile.is_some())),
        Ending::NoMemory => return Some(Cause::Hint(Hint::NoMemory)),
        Ending::NoMap(which) => (named_map(command, which), Fact::Absent),
        Ending::NotRegular => (outfile, Fact::NeedsForce),
        Ending::NoOutput => (outfile, Fact::Absent),
        Ending::EmptyPattern => (infile, Fact::Empty),
    };
    Some(Cause::File { file, fact })
}

/// The line that an answer's message is followed by. There is none if the arguments ask that nothing be said, and none
/// for an answer whose message says all. After a rescue that is done it says what that left, by the `last` line.
pub fn advise(
    rt: &HostRuntime,
    words: &Words,
    ending: Ending,
    source: &FileSource,
    site: &FolderSite,
    last: &[u8],
) -> Option<Line> {
    let (command, role) = match read_asked(rt.alloc(), words) {
        Ok(Task::Rescue(command)) | Ok(Task::Generate(command)) => (command, Role::Infile),
        Ok(Task::Fill { command, .. }) => (command, Role::Pattern),
        Ok(Task::Sample { .. }) => return None,
        Err(refusal) => return line_on_words(PROGRAM, words, refusal, manual()),
    };
    if command.options.quiet {
        return None;
    }
    if let Ending::MapRefused { which, error } = ending {
        return Some(line_on_map(rt, PROGRAM, named_map(&command, which), error));
    }
    if ending == Ending::NoMemory && command.mapfile.is_some() {
        return Some(line_on_memory(rt, PROGRAM, named_map(&command, Which::RunMap)));
    }
    if let Ending::SiteFault { call, .. } = ending {
        return line_on_fault(rt, &command, site, call);
    }
    let cause = cause_of(&command, role, ending, source, last)?;
    Some(line_of(PROGRAM, cause))
}

/// The line after a run of which the kernel refused reads past its cache.
pub fn line_after(rt: &HostRuntime, words: &Words, source: &FileSource) -> Option<Line> {
    match read_command(rt.alloc(), words) {
        Ok(Task::Rescue(command)) | Ok(Task::Generate(command)) | Ok(Task::Fill { command, .. })
            if !command.options.quiet => { cached_line(PROGRAM, source.refused()) }
        _ => None,
    }
}
