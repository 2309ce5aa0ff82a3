//! What a comparison that came to its end answers, and says on standard output.
ghost use Rattle.std.specs.Prelude.{◌≡◌, ◌+◌, ◌≤◌, ◌++◌, length};
ghost use Rattle.std.specs.Fmt.{decimal};
ghost use Rattle.arrayvec.specs.ArrayVec.{array_vec_len};
ghost use Rattle.ddrescueverify_cli.specs.Reporting.{AnswersAs, Reports, line_of_tally};
ghost use Rattle.ddrescueverify_cli.specs.Work.{answer_of_tally};

use crate::ending::VerifyEnding;
use console_texts::message::{Message, add, end};
use itoa::Buffer;
use rescue_console::console::{Channel, Console, ConsoleFault};
use rescue_verify::tally::Tally;

/// The answer: whether something differs, and how much.
fn answer_of(tally: Tally) -> VerifyEnding
    ensures { result ≡ answer_of_tally tally }
{
    if tally.differing == 0 {
        VerifyEnding::Done
    } else {
        VerifyEnding::Differs {
            bytes: tally.differing,
        }
    }
}

/// Adds a text and a number after it, which has up to 20 digits.
fn add_bytes(line: &mut Message, text: &str, n: u64)
    requires { array_vec_len line.old + length text.now ≤ 108 }
    ensures text { line.new.items ≡ line.old.items ++ text.now ++ decimal n }
    ensures len { array_vec_len line.new ≤ array_vec_len line.old + length text.now + 20 }
{
    add(line, text);
    add(line, Buffer::new().format(n));
}

/// The line on how much was compared.
fn make_line(tally: Tally) -> Message
    ensures { result.items ≡ line_of_tally tally }
{
    let mut line = Message::new();
    add_bytes(&mut line, "compared ", tally.compared);
    add_bytes(&mut line, " B, differing ", tally.differing);
    add_bytes(&mut line, " B, unread ", tally.unread);
    add(&mut line, " B");
    end(&mut line);
    line
}

/// Puts the line on how much was compared, unless nothing is to be said, and answers.
fn report<P: Console>(tally: Tally, quiet: bool, console: &mut P) -> VerifyEnding
    ensures { Reports tally quiet result (P.state console.old) (P.state console.new) }
{
    if quiet {
        return answer_of(tally);
    }
    match console.put(Channel::Out, &make_line(tally)) {
        Ok(()) => answer_of(tally),
        Err(ConsoleFault) => VerifyEnding::ConsoleFault,
    }
}

/// Answers for what the work came to. If it came to its end, the line says how much was compared, unless nothing is to
/// be said.
pub(crate) fn answer<P: Console>(
    came: Result<Tally, VerifyEnding>,
    quiet: bool,
    console: &mut P,
) -> VerifyEnding
    ensures { AnswersAs quiet came result (P.state console.old) (P.state console.new) }
{
    match came {
        Ok(tally) => report(tally, quiet, console),
        Err(refusal) => refusal,
    }
}
