//! The lines before a run: what a person is warned of, by what is read without changing anything.
ghost use Rattle.ddrescue_words.specs.Asking.{AreInLimits};

use ddrescue_words::command::{Command, Task, read_command};
use option_words::words::Words;
use rescue_console::console::Console;
use rescue_warnings::advice::due_advice;
use rescue_warnings::facts::{Facts, MapText, Place, Work};
use rescue_warnings::look::{
    is_link, look_at_disks, look_at_file, look_at_map_place, look_at_mounting,
    look_at_outfile_place,
};
use rescue_warnings::tail::look_at_map;
use rescue_warnings::warning::{Names, put_warnings};
use task_files::checked::PROGRAM;

/// What a mapfile says. Nothing is known of one that isn't named.
fn look_at_named(rt: &HostRuntime, name: Option<&str>) -> Option<MapText> {
    look_at_map(rt, name?)
}

/// What is known before the work of a command.
fn facts_of(rt: &HostRuntime, work: Work, command: &Command<'_>, stop_is_told: bool) -> Facts
    requires { AreInLimits command.now.options }
{
    let options = &command.options;
    let input_position = options.input_position;
    let disks = look_at_disks(rt, command.infile);
    Facts {
        work,
        input_position,
        output_position: options.output_position.unwrap_or(input_position),
        size: options.size,
        sector: options.sector,
        cluster: options.cluster(),
        complete_only: options.complete_only,
        domain_map: command.domain_map.is_some(),
        domain: look_at_named(rt, command.domain_map),
        scrapes: options.passes.trims && options.passes.scrapes,
        infile: look_at_file(rt, command.infile),
        infile_mounting: look_at_mounting(rt, command.infile),
        outfile: look_at_file(rt, command.outfile),
        outfile_place: look_at_outfile_place(rt, disks.as_slice(), command.outfile),
        map: look_at_named(rt, command.mapfile),
        map_is_link: command.mapfile.is_some_and(|name| is_link(rt, name)),
        map_place: match command.mapfile {
            Some(name) => look_at_map_place(rt, disks.as_slice(), name),
            None => Place::unknown(),
        },
        is_cached: false,
        stop_is_told,
    }
}

/// Puts the lines before the work of a command, unless nothing is to be said. After one that can't be put there is
/// none.
fn warn_of<P: Console>(
    rt: &HostRuntime,
    work: Work,
    command: &Command<'_>,
    console: &mut P,
    stop_is_told: bool,
)
    requires { AreInLimits command.now.options }
{
    if command.options.quiet {
        return;
    }
    let names = Names {
        infile: command.infile,
        outfile: command.outfile,
        mapfile: command.mapfile.unwrap_or(""),
        domain: command.domain_map.unwrap_or(""),
    };
    let advices = due_advice(&facts_of(rt, work, command, stop_is_told));
    put_warnings(PROGRAM, names, &advices, console);
}

/// Puts the lines before the work that words ask for, by whether the program is told of a stop. Nothing else changes.
pub fn warn<P: Console>(rt: &HostRuntime, words: &Words, console: &mut P, stop_is_told: bool) {
    match read_command(rt.alloc(), words) {
        Ok(Task::Rescue(command)) => warn_of(rt, Work::Rescue, &command, console, stop_is_told),
        Ok(Task::Fill { command, .. }) => warn_of(rt, Work::Fill, &command, console, stop_is_told),
        Ok(Task::Generate(command)) => warn_of(rt, Work::Generate, &command, console, stop_is_told),
        Ok(Task::Sample { .. }) | Err(_) => {}
    }
}
