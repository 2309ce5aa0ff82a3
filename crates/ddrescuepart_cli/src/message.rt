//! The message on an answer, on standard error.
ghost use Rattle.std.specs.Prelude.{◌≡◌, ◌≤◌, ◌++◌};
ghost use Rattle.arrayvec.specs.ArrayVec.{array_vec_len};
ghost use Rattle.ddrescuepart_cli.specs.Answers.{is_silent, message, text_of_ending};

use crate::ending::PartEnding;
use console_texts::faults::add_usage;
use console_texts::message::{Message, add, begin, end};
use program_promise::answer::Answer;

/// The program's name, which begins its command line and its messages.
pub(crate) const PROGRAM: &str = "ddrescuepart";

/// Adds the message on an answer.
fn add_ending(message: &mut Message, ending: PartEnding)
    requires { array_vec_len message.old ≤ 20 }
    ensures text { message.new.items ≡ message.old.items ++ text_of_ending ending }
    ensures len { array_vec_len message.new ≤ 120 }
{
    match ending {
        PartEnding::Done => {}
        PartEnding::Usage(fault) => add_usage(message, fault),
        PartEnding::SourceFault => add(message, "cannot open input"),
        PartEnding::SourceLost => add(message, "input lost"),
        PartEnding::Refused(refusal) => refusal.add_to(message),
        PartEnding::ConsoleFault => add(message, "cannot write standard output"),
        PartEnding::NoMemory => add(message, "out of memory"),
    }
}

impl Answer for PartEnding {
    ghost silent = { is_silent };

    ghost said = { message };

    fn is_silent(self) -> bool {
        matches!(self, PartEnding::Done)
    }

    fn message(self) -> Message {
        let mut message = begin(PROGRAM);
        add_ending(&mut message, self);
        end(&mut message);
        message
    }
}
