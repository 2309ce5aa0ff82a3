//! The message on an answer, on standard error.
ghost use Rattle.std.specs.Prelude.{◌≡◌, ◌≤◌, ◌++◌};
ghost use Rattle.arrayvec.specs.ArrayVec.{array_vec_len};
ghost use Rattle.ddrescueplan_cli.specs.Answers.{is_silent, message, text_of_ending};

use crate::ending::PlanEnding;
use console_texts::faults::{add_map_error, add_site_fault, add_usage};
use console_texts::message::{Message, add, begin, end};
use program_promise::answer::Answer;

/// The program's name, which begins its messages.
const PROGRAM: &str = "ddrescueplan";

/// Adds the message on an answer.
fn add_ending(message: &mut Message, ending: PlanEnding)
    requires { array_vec_len message.old ≤ 20 }
    ensures text { message.new.items ≡ message.old.items ++ text_of_ending ending }
    ensures len { array_vec_len message.new ≤ 120 }
{
    match ending {
        PlanEnding::Done => {}
        PlanEnding::Usage(fault) => add_usage(message, fault),
        PlanEnding::NoMap => add(message, "test mapfile does not exist"),
        PlanEnding::MapRefused { error } => {
            add(message, "test mapfile: ");
            add_map_error(message, error);
        }
        PlanEnding::SiteFault { call } => add_site_fault(message, call),
        PlanEnding::ConsoleFault => add(message, "cannot write standard output"),
        PlanEnding::NoMemory => add(message, "out of memory"),
    }
}

impl Answer for PlanEnding {
    ghost silent = { is_silent };

    ghost said = { message };

    fn is_silent(self) -> bool {
        matches!(self, PlanEnding::Done)
    }

    fn message(self) -> Message {
        let mut message = begin(PROGRAM);
        add_ending(&mut message, self);
        end(&mut message);
        message
    }
}
