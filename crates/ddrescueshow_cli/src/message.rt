//! The message on an answer, on standard error.
ghost use Rattle.std.specs.Prelude.{◌≡◌, ◌+◌, ◌≤◌, ◌++◌};
ghost use Rattle.arrayvec.specs.ArrayVec.{array_vec_len};
ghost use Rattle.ddrescueshow_cli.specs.Answers.{is_silent, message, text_of_ending, which_text};

use crate::ending::{ShowEnding, Which};
use console_texts::faults::{add_map_error, add_site_fault, add_usage};
use console_texts::message::{Message, add, begin, end};
use program_promise::answer::Answer;

/// The program's name, which begins its messages.
pub(crate) const PROGRAM: &str = "ddrescueshow";

/// Adds which map an answer is about.
fn add_which(message: &mut Message, which: Which)
    requires { array_vec_len message.old ≤ 20 }
    ensures text { message.new.items ≡ message.old.items ++ which_text which }
    ensures len { array_vec_len message.new ≤ array_vec_len message.old + 14 }
{
    match which {
        Which::RunMap => add(message, "mapfile"),
        Which::DomainMap => add(message, "domain mapfile"),
    }
}

/// Adds the message on an answer.
fn add_ending(message: &mut Message, ending: ShowEnding)
    requires { array_vec_len message.old ≤ 20 }
    ensures text { message.new.items ≡ message.old.items ++ text_of_ending ending }
    ensures len { array_vec_len message.new ≤ 120 }
{
    match ending {
        ShowEnding::Done => {}
        ShowEnding::Usage(fault) => add_usage(message, fault),
        ShowEnding::TooManyCells => add(message, "more than 16000 cells in SVG"),
        ShowEnding::NoMap(which) => {
            add_which(message, which);
            add(message, " does not exist");
        }
        ShowEnding::MapRefused { which, error } => {
            add_which(message, which);
            add(message, ": ");
            add_map_error(message, error);
        }
        ShowEnding::SiteFault { call } => add_site_fault(message, call),
        ShowEnding::ConsoleFault => add(message, "cannot write standard output"),
        ShowEnding::NoMemory => add(message, "out of memory"),
    }
}

impl Answer for ShowEnding {
    ghost silent = { is_silent };

    ghost said = { message };

    fn is_silent(self) -> bool {
        matches!(self, ShowEnding::Done)
    }

    fn message(self) -> Message {
        let mut message = begin(PROGRAM);
        add_ending(&mut message, self);
        end(&mut message);
        message
    }
}
