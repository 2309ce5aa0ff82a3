//! Why words give no command.
ghost use Rattle.std.specs.Prelude.{◌≡◌, map};
ghost use Rattle.option_words.specs.declared.command_error.CommandError.TheVariants.{Usage};
ghost use Rattle.option_words.specs.Rows.{meaning_of_row};
ghost use Rattle.option_words.specs.Values.{is_given, quiet_letter};
ghost use Rattle.option_words.specs.Grammar.{unread_error};

use crate::fault::{UsageFault, WordFault};
use crate::given::{QUIET, is_given};
use crate::reading::Item;
use crate::table::OptionTable;

/// Why words ask for nothing.
#[derive(Clone, Copy, Debug, PartialEq, Eq)]
pub enum CommandError {
    /// The words are refused for this fault. `quiet` says whether they ask for no message.
    Usage { fault: UsageFault, quiet: bool },
    /// There wasn't enough memory.
    NoMemory,
}

/// Why words that can't be read ask for nothing.
pub fn unread(fault: WordFault) -> CommandError
    ensures { result ≡ unread_error fault }
{
    match fault {
        WordFault::NoMemory => CommandError::NoMemory,
        _ => CommandError::Usage {
            fault: UsageFault::Word(fault),
            quiet: false,
        },
    }
}

/// Why words that are refused for a fault ask for nothing.
pub fn usage_error(table: &OptionTable, items: &[Item], fault: UsageFault) -> CommandError
    ensures { result ≡ Usage fault (is_given (map meaning_of_row table.now) quiet_letter items.now) }
{
    CommandError::Usage {
        fault,
        quiet: is_given(table, QUIET, items),
    }
}
