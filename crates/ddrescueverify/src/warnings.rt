//! The lines before a comparison: what a person is warned of, by what is read without changing anything.

use crate::advice::PROGRAM;
use ddrescueverify_words::command::{Command, read_command};
use option_words::words::Words;
use rescue_console::console::Console;
use rescue_warnings::advice::due_advice;
use rescue_warnings::facts::{Facts, Place, Work};
use rescue_warnings::look::{look_at_file, look_at_mounting};
use rescue_warnings::tail::look_at_map;
use rescue_warnings::warning::{Names, put_warnings};

/// What is known before a comparison.
fn facts_of(rt: &HostRuntime, command: &Command<'_>, is_cached: bool) -> Facts {
    let options = &command.options;
    let input_position = options.input_position;
    Facts {
        work: Work::Comparison,
        input_position,
        output_position: options.output_position.unwrap_or(input_position),
        size: options.size,
        sector: options.sector,
        cluster: options.sector,
        complete_only: false,
        domain_map: false,
        domain: None,
        scrapes: false,
        infile: look_at_file(rt, command.infile),
        infile_mounting: look_at_mounting(rt, command.infile),
        outfile: None,
        outfile_place: Place::unknown(),
        map: look_at_map(rt, command.mapfile),
        map_is_link: false,
        map_place: Place::unknown(),
        is_cached,
        stop_is_told: false,
    }
}

/// Puts the lines before the comparison that words ask for, unless nothing is to be said. `is_cached` says whether a
/// block device is read through the kernel's cache. Nothing else changes.
pub fn warn<P: Console>(rt: &HostRuntime, words: &Words, console: &mut P, is_cached: bool) {
    let Ok(command) = read_command(rt.alloc(), words) else {
        return;
    };
    if command.options.quiet {
        return;
    }
    let names = Names {
        infile: command.infile,
        outfile: command.outfile,
        mapfile: command.mapfile,
        domain: "",
    };
    let advices = due_advice(&facts_of(rt, &command, is_cached));
    put_warnings(PROGRAM, names, &advices, console);
}
