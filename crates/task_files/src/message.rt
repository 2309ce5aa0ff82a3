//! The message on an answer, on the console.
ghost use Rattle.std.specs.Prelude.{◌≡◌, ◌+◌, ◌≤◌, ◌++◌};
ghost use Rattle.arrayvec.specs.ArrayVec.{array_vec_len};
ghost use Rattle.task_files.specs.Answers.{which_text, after_text, limit_text, is_silent, text_of_ending, message};

use crate::checked::PROGRAM;
use crate::ending::{Ending, Which};
use console_texts::faults::{add_map_error, add_site_fault, add_usage};
use console_texts::message::{Message, add, add_number, begin, end};
use program_promise::answer::Answer;
use rescue_rules::stop::{Limit, Stop};

/// Adds which map an answer is about.
fn add_which(message: &mut Message, which: Which)
    requires { array_vec_len message.old ≤ 20 }
    ensures text { message.new.items ≡ message.old.items ++ which_text which }
    ensures len { array_vec_len message.new ≤ array_vec_len message.old + 14 }
{
    match which {
        Which::DomainMap => add(message, "domain mapfile"),
        Which::TestMap => add(message, "test mapfile"),
        Which::RunMap => add(message, "mapfile"),
    }
}

/// Adds which limit a run met.
fn add_limit(message: &mut Message, limit: Limit)
    requires { array_vec_len message.old ≤ 60 }
    ensures text { message.new.items ≡ message.old.items ++ limit_text limit }
    ensures len { array_vec_len message.new ≤ array_vec_len message.old + 61 }
{
    match limit {
        Limit::TooManyErrors(errors) => add_number(message, "read errors: ", errors as usize, ""),
        Limit::TooManyAreas(areas) => add_number(message, "bad areas: ", areas as usize, ""),
        Limit::TimedOut(idle) => add_number(message, "no whole read for ", idle as usize, " ms"),
    }
}

/// Adds why a run had stopped before its last call failed.
fn add_after(message: &mut Message, earlier: Option<Stop>)
    requires { array_vec_len message.old ≤ 50 }
    ensures text { message.new.items ≡ message.old.items ++ after_text earlier }
    ensures len { array_vec_len message.new ≤ array_vec_len message.old + 68 }
{
    let Some(stop) = earlier else { return };
    add(message, " after ");
    match stop {
        Stop::SourceLost => add(message, "input lost"),
        Stop::Site(call) => add_site_fault(message, call),
        Stop::LimitMet(limit) => add_limit(message, limit),
        Stop::NoMemory => add(message, "out of memory"),
    }
}

/// Adds the message on an answer.
fn add_ending(message: &mut Message, ending: Ending)
    requires { array_vec_len message.old ≤ 20 }
    ensures text { message.new.items ≡ message.old.items ++ text_of_ending ending }
    ensures len { array_vec_len message.new ≤ 120 }
{
    match ending {
        Ending::Done => {}
        Ending::Usage(fault) => add_usage(message, fault),
        Ending::SameName { .. } => add(message, "two files have the same name"),
        Ending::NoMap(which) => {
            add_which(message, which);
            add(message, " does not exist");
        }
        Ending::SourceFault => add(message, "cannot open input"),
        Ending::NotRegular => add(message, "output is not a regular file, use --force"),
        Ending::MapRefused { which, error } => {
            add_which(message, which);
            add(message, ": ");
            add_map_error(message, error);
        }
        Ending::SourceLost => add(message, "input lost"),
        Ending::EmptyPattern => add(message, "input is empty"),
        Ending::PatternUnread => add(message, "input cannot be read"),
        Ending::NoOutput => add(message, "output does not exist"),
        Ending::SiteFault { call, earlier } => {
            add_site_fault(message, call);
            add_after(message, earlier);
        }
        Ending::LimitMet(limit) => add_limit(message, limit),
        Ending::NoMemory => add(message, "out of memory"),
    }
}

impl Answer for Ending {
    ghost silent = { is_silent };

    ghost said = { message };

    fn is_silent(self) -> bool {
        matches!(self, Ending::Done)
    }

    fn message(self) -> Message {
        let mut message = begin(PROGRAM);
        add_ending(&mut message, self);
        end(&mut message);
        message
    }
}
