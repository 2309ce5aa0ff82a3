//! The message on an answer, on standard error.
ghost use Rattle.std.specs.Prelude.{◌≡◌, ◌+◌, ◌≤◌, ◌++◌};
ghost use Rattle.arrayvec.specs.ArrayVec.{array_vec_len};
ghost use Rattle.ddrescuelog_cli.specs.Answers.{is_silent, message, text_of_ending, which_text};

use crate::ending::{LogEnding, Which};
use console_texts::faults::{add_map_error, add_site_fault, add_usage};
use console_texts::message::{Message, add, add_number, begin, end};
use program_promise::answer::Answer;

/// The program's name, which begins its command line and its messages.
pub(crate) const PROGRAM: &str = "ddrescuelog";

/// Adds which map an answer is about.
fn add_which(message: &mut Message, which: Which)
    requires { array_vec_len message.old ≤ 20 }
    ensures text { message.new.items ≡ message.old.items ++ which_text which }
    ensures len { array_vec_len message.new ≤ array_vec_len message.old + 14 }
{
    match which {
        Which::DomainMap => add(message, "domain mapfile"),
        Which::RunMap => add(message, "mapfile"),
        Which::OtherMap => add(message, "other mapfile"),
    }
}

/// Adds the message on an answer.
fn add_ending(message: &mut Message, ending: LogEnding)
    requires { array_vec_len message.old ≤ 20 }
    ensures text { message.new.items ≡ message.old.items ++ text_of_ending ending }
    ensures len { array_vec_len message.new ≤ 120 }
{
    match ending {
        LogEnding::Done | LogEnding::NotDone | LogEnding::Differ => {}
        LogEnding::Usage(fault) => add_usage(message, fault),
        LogEnding::Exists => add(message, "mapfile exists, use --force"),
        LogEnding::NoMap(which) => {
            add_which(message, which);
            add(message, " does not exist");
        }
        LogEnding::MapRefused { which, error } => {
            add_which(message, which);
            add(message, ": ");
            add_map_error(message, error);
        }
        LogEnding::BadNumber { line } => {
            add_number(message, "line ", line, ": not a block number");
        }
        LogEnding::ListTooLong => add(message, "list too long"),
        LogEnding::SiteFault { call } => add_site_fault(message, call),
        LogEnding::FeedFault => add(message, "cannot read standard input"),
        LogEnding::ConsoleFault => add(message, "cannot write standard output"),
        LogEnding::NoMemory => add(message, "out of memory"),
    }
}

impl Answer for LogEnding {
    ghost silent = { is_silent };

    ghost said = { message };

    fn is_silent(self) -> bool {
        matches!(
            self,
            LogEnding::Done | LogEnding::NotDone | LogEnding::Differ
        )
    }

    fn message(self) -> Message {
        let mut message = begin(PROGRAM);
        add_ending(&mut message, self);
        end(&mut message);
        message
    }
}
