//! Causes of arguments that ask for nothing that can be done.
ghost use Rattle.std.specs.Prelude.{◌≤◌, IfSome, length};
ghost use Rattle.program_advice.specs.Lines.{IsOneLine};

use crate::cause::Cause;
use crate::line::{Line, line_of};
use option_words::asked::Refusal;
use option_words::command_error::CommandError;
use option_words::fault::{UsageFault, WordFault};
use option_words::row::Wants;
use option_words::words::Words;

/// What a program tells of its arguments.
#[derive(Clone, Copy)]
pub struct Manual {
    /// How it is called, and where its options are described.
    pub usage: &'static str,
    /// What an argument isn't that is no option: one of this program.
    pub option: &'static str,
    /// What an argument isn't that names no file and gives no number.
    pub operand: &'static str,
}

/// An argument, counted from 1, if there are that many.
fn argument(words: &Words, word: usize) -> Option<&str> {
    if word == 0 || word > words.len() {
        return None;
    }
    Some(words.get(word))
}

/// Whether this is how other programs are asked for help or for their version.
fn asks_for_help(text: &str) -> bool {
    text == "-h" || text == "-V" || text == "--help" || text == "--version"
}

/// Why words can't be read.
fn word_cause<'a>(words: &'a Words, fault: WordFault, manual: Manual) -> Option<Cause<'a>> {
    let (number, wanted) = match fault {
        WordFault::UnknownShort { word, .. } | WordFault::UnknownLong { word } => {
            (word, manual.option)
        }
        WordFault::Ambiguous { word } => (word, "enough of a name: several options begin with it"),
        WordFault::MissingValue { word } => (word, "followed by its value"),
        WordFault::UnwantedValue { word } => (word, "an option that takes a value"),
        WordFault::NoMemory => return None,
    };
    let word = argument(words, number)?;
    if asks_for_help(word) {
        return Some(Cause::Usage {
            usage: manual.usage,
        });
    }
    Some(Cause::Argument { word, wanted })
}

/// What the value of an option should be.
fn wanted_text(wants: Wants) -> &'static str {
    match wants {
        Wants::Size | Wants::Sectors | Wants::Skips => {
            "a size that fits here (4Ki is 4096, 4k is 4000)"
        }
        Wants::Retries => "a number from 0 to 65535",
        Wants::Areas | Wants::Number => "a whole number, 0 or more",
        Wants::Cells => "a number from 1 to 1000",
        Wants::Kib => "a number from 1 to 65536",
        Wants::Interval => "a time in whole units (90 is 90 s, 2m is 120 s)",
        Wants::TypeLists => "two lists of types, such as */,-",
        Wants::Types => "a list of types, such as - or */-",
        Wants::OneType => "one type, such as -",
        Wants::TwoTypes => "two types, such as -+",
        Wants::Mapfile | Wants::DomainMap | Wants::TestMap => "a file's name",
        Wants::Coloring => "always, never or auto",
        Wants::Nothing => "a value that fits here",
    }
}

/// Why arguments ask for nothing that can be done, if that helps.
fn usage_cause<'a>(
    words: &'a Words,
    fault: UsageFault,
    wants: Option<Wants>,
    manual: Manual,
) -> Option<Cause<'a>> {
    match fault {
        UsageFault::Word(fault) => word_cause(words, fault, manual),
        UsageFault::BadValue { word: number } => {
            let word = argument(words, number)?;
            let wanted = match wants {
                Some(wants) => wanted_text(wants),
                None => manual.operand,
            };
            Some(Cause::Argument { word, wanted })
        }
        UsageFault::Modes { .. } | UsageFault::Operands { .. } => Some(Cause::Usage {
            usage: manual.usage,
        }),
        UsageFault::Conflict { word: number } => Some(Cause::Argument {
            word: argument(words, number)?,
            wanted: "an option that goes with the others",
        }),
        UsageFault::PlaceTooLarge => None,
    }
}

/// The line that follows the message on arguments that ask for nothing. There is none if they ask that nothing be said,
/// and none if it wouldn't help.
pub fn line_on_words(program: &str, words: &Words, refusal: Refusal, manual: Manual) -> Option<Line>
    requires { length program.now ≤ 18 }
    ensures { IfSome result (λ line. IsOneLine line.items) }
{
    match refusal.error {
        CommandError::Usage { fault, quiet } if !quiet => {
            let cause = usage_cause(words, fault, refusal.wants, manual)?;
            Some(line_of(program, cause))
        }
        _ => None,
    }
}
