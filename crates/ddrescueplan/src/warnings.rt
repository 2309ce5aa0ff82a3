//! The line before a plan: what a person is warned of, by what is read without changing anything.

use crate::advice::PROGRAM;
use ddrescueplan_words::command::{Command, read_command};
use option_words::words::Words;
use rescue_console::console::Console;
use rescue_warnings::advice::due_advice;
use rescue_warnings::facts::{Facts, Found, Place, Work};
use rescue_warnings::tail::look_at_map;
use rescue_warnings::warning::{Names, put_warnings};

/// What is known before a plan.
fn facts_of(rt: &HostRuntime, command: &Command<'_>) -> Facts {
    let options = &command.options.rescue;
    Facts {
        work: Work::Plan,
        input_position: options.input_position,
        output_position: options.input_position,
        size: options.size,
        sector: options.sector,
        cluster: options.sector,
        complete_only: false,
        domain_map: false,
        domain: None,
        scrapes: options.passes.trims && options.passes.scrapes,
        infile: Some(Found::Regular {
            length: command.length,
        }),
        infile_mounting: None,
        outfile: None,
        outfile_place: Place::unknown(),
        map: look_at_map(rt, command.test_map),
        map_is_link: false,
        map_place: Place::unknown(),
        is_cached: false,
        stop_is_told: false,
    }
}

/// Puts the line before the plan that words ask for, if one is due and anything is to be said. Nothing else changes.
pub fn warn<P: Console>(rt: &HostRuntime, words: &Words, console: &mut P) {
    let Ok(command) = read_command(rt.alloc(), words) else {
        return;
    };
    if command.options.rescue.quiet {
        return;
    }
    let names = Names {
        infile: "",
        outfile: "",
        mapfile: command.test_map,
        domain: "",
    };
    let advices = due_advice(&facts_of(rt, &command));
    put_warnings(PROGRAM, names, &advices, console);
}
