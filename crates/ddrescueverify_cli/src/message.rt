//! The message on an answer, on standard error.
ghost use Rattle.std.specs.Prelude.{◌≡◌, ◌+◌, ◌≤◌, ◌++◌};
ghost use Rattle.arrayvec.specs.ArrayVec.{array_vec_len};
ghost use Rattle.ddrescueverify_cli.specs.Answers.{is_silent, message, text_of_ending, which_text};

use crate::checked::PROGRAM;
use crate::ending::{VerifyEnding, Which};
use console_texts::faults::{add_map_error, add_site_fault, add_usage};
use console_texts::message::{Message, add, begin, end};
use program_promise::answer::Answer;

/// Adds which map an answer is about.
fn add_which(message: &mut Message, which: Which)
    requires { array_vec_len message.old ≤ 20 }
    ensures text { message.new.items ≡ message.old.items ++ which_text which }
    ensures len { array_vec_len message.new ≤ array_vec_len message.old + 7 }
{
    match which {
        Which::RunMap => add(message, "mapfile"),
    }
}

/// Adds the message on an answer.
fn add_ending(message: &mut Message, ending: VerifyEnding)
    requires { array_vec_len message.old ≤ 20 }
    ensures text { message.new.items ≡ message.old.items ++ text_of_ending ending }
    ensures len { array_vec_len message.new ≤ 120 }
{
    match ending {
        VerifyEnding::Done | VerifyEnding::Differs { .. } => {}
        VerifyEnding::Usage(fault) => add_usage(message, fault),
        VerifyEnding::SameName { .. } => add(message, "two files have the same name"),
        VerifyEnding::NoMap => {
            add_which(message, Which::RunMap);
            add(message, " does not exist");
        }
        VerifyEnding::NoOutput => add(message, "output does not exist"),
        VerifyEnding::MapRefused { which, error } => {
            add_which(message, which);
            add(message, ": ");
            add_map_error(message, error);
        }
        VerifyEnding::SourceFault => add(message, "cannot open input"),
        VerifyEnding::SourceLost => add(message, "input lost"),
        VerifyEnding::SiteFault { call } => add_site_fault(message, call),
        VerifyEnding::ConsoleFault => add(message, "cannot write standard output"),
        VerifyEnding::NoMemory => add(message, "out of memory"),
    }
}

impl Answer for VerifyEnding {
    ghost silent = { is_silent };

    ghost said = { message };

    fn is_silent(self) -> bool {
        matches!(self, VerifyEnding::Done | VerifyEnding::Differs { .. })
    }

    fn message(self) -> Message {
        let mut message = begin(PROGRAM);
        add_ending(&mut message, self);
        end(&mut message);
        message
    }
}
