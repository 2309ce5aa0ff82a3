//! How a call ends: the message on its answer.
ghost use Rattle.std.specs.Prelude.{◌≡◌, ℕ, List, Bool};
ghost use Rattle.program_promise.specs.Saying.{SaysAs};

use console_texts::message::Message;
use rescue_console::console::{Channel, Console};

/// An answer of a program.
pub trait Answer: Copy {
    /// Whether the answer has no message.
    ghost silent: { Self → Bool };

    /// The answer's message.
    ghost said: { Self → List ℕ };

    /// Whether the answer has no message, since it is what was asked for.
    fn is_silent(self) -> bool
        ensures { result ≡ silent self };

    /// The answer's message, with the program's name and a newline.
    fn message(self) -> Message
        ensures { result.items ≡ said self };
}

/// Says what an answer has to say on standard error, unless nothing is to be said.
pub fn say_ending<E: Answer, P: Console>(console: &mut P, ending: E, quiet: bool)
    ensures { SaysAs (E.silent ending) quiet (E.said ending) (P.state console.old) (P.state console.new) }
{
    if !quiet && !ending.is_silent() {
        // A console that fails changes no answer.
        let _put = console.put(Channel::Err, &ending.message());
    }
}
