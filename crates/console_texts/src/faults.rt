//! The texts of faults, which are added to a message.
ghost use Rattle.std.specs.Prelude.{◌≡◌, ◌+◌, ◌≤◌, ◌++◌, length};
ghost use Rattle.arrayvec.specs.ArrayVec.{array_vec_len};
ghost use Rattle.console_texts.specs.Texts.{word_fault_text, usage_text, error_text, call_text, fault_text};

use crate::message::{Message, add, add_number};
use crash_site::site::SiteCall;
use mapfile_text::read::MapError;
use option_words::fault::{UsageFault, WordFault};

/// Adds why words can't be read.
pub fn add_word_fault(message: &mut Message, fault: WordFault)
    requires { array_vec_len message.old ≤ 40 }
    ensures text { message.new.items ≡ message.old.items ++ word_fault_text fault }
    ensures len { array_vec_len message.new ≤ array_vec_len message.old + 80 }
{
    match fault {
        WordFault::UnknownShort { word, .. } => add_number(
            message,
            "word ",
            word,
            ": unknown option letter",
        ),
        WordFault::UnknownLong { word } => add_number(
            message,
            "word ",
            word,
            ": unknown option name",
        ),
        WordFault::Ambiguous { word } => add_number(
            message,
            "word ",
            word,
            ": ambiguous option name",
        ),
        WordFault::MissingValue { word } => add_number(message, "word ", word, ": value missing"),
        WordFault::UnwantedValue { word } => add_number(
            message,
            "word ",
            word,
            ": value not allowed",
        ),
        WordFault::NoMemory => add(message, "out of memory"),
    }
}

/// Adds why words ask for nothing that can be done.
pub fn add_usage(message: &mut Message, fault: UsageFault)
    requires { array_vec_len message.old ≤ 40 }
    ensures text { message.new.items ≡ message.old.items ++ usage_text fault }
    ensures len { array_vec_len message.new ≤ array_vec_len message.old + 80 }
{
    match fault {
        UsageFault::Word(fault) => add_word_fault(message, fault),
        UsageFault::BadValue { word } => add_number(message, "word ", word, ": bad value"),
        UsageFault::Conflict { word } => add_number(
            message,
            "word ",
            word,
            ": not with the other options",
        ),
        UsageFault::Modes { given } => add_number(message, "modes given: ", given, ""),
        UsageFault::Operands { given } => add_number(message, "operands given: ", given, ""),
        UsageFault::PlaceTooLarge => add(message, "output place too large"),
    }
}

/// Adds what is wrong with the text of a mapfile.
pub fn add_map_error(message: &mut Message, error: MapError)
    requires { array_vec_len message.old ≤ 40 }
    ensures text { message.new.items ≡ message.old.items ++ error_text error }
    ensures len { array_vec_len message.new ≤ array_vec_len message.old + 80 }
{
    match error {
        MapError::NoStatusLine => add(message, "no status line"),
        MapError::BadStatusLine { line } => add_number(message, "line ", line, ": bad status line"),
        MapError::BadBlockLine { line } => add_number(message, "line ", line, ": bad block line"),
        MapError::Gap { line } => add_number(message, "line ", line, ": gap"),
        MapError::Overlap { line } => add_number(message, "line ", line, ": overlap"),
        MapError::TooLarge { line } => add_number(message, "line ", line, ": number too large"),
        MapError::TooLong => add(message, "text too long"),
        MapError::NoMemory => add(message, "out of memory"),
    }
}

/// What a call on the files is called.
fn name_of(call: SiteCall) -> &'static str
    ensures name { result.now ≡ call_text call }
    ensures len { length result.now ≤ 13 }
{
    match call {
        SiteCall::ImageOpen => "image open",
        SiteCall::ImageRead => "image read",
        SiteCall::ImageWrite => "image write",
        SiteCall::ImageSync => "image sync",
        SiteCall::MapRead => "map read",
        SiteCall::DraftBegin => "draft begin",
        SiteCall::DraftAppend => "draft append",
        SiteCall::DraftSync => "draft sync",
        SiteCall::DraftPublish => "draft publish",
        SiteCall::MapSettle => "map settle",
        SiteCall::MapRemove => "map remove",
    }
}

/// Adds which call on the files failed.
pub fn add_site_fault(message: &mut Message, call: SiteCall)
    requires { array_vec_len message.old ≤ 100 }
    ensures text { message.new.items ≡ message.old.items ++ fault_text call }
    ensures len { array_vec_len message.new ≤ array_vec_len message.old + 22 }
{
    add(message, "fault in ");
    add(message, name_of(call));
}
