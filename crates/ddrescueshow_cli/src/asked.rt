//! Whether the words ask to follow a rescue, and not for a picture.
ghost use Rattle.std.specs.Prelude.{◌≡◌, ◌↔◌, ◌≤◌, false, IfOk, codes, IsTrue};
ghost use Rattle.option_words.specs.Words.{word};
ghost use Rattle.ddrescueshow_words.specs.Command.{Asks, Command as Asked};
ghost use Rattle.ddrescueshow_cli.specs.Following.{AskToFollow, IsAtProgress};

use block_list::tiles::NoMemory;
use ddrescueshow_words::command::read_command;
use option_words::command_error::CommandError;
use option_words::fault::{UsageFault, WordFault};
use option_words::words::Words;
use std::alloc::Global;

/// Whether the word with a number, counted from 1, is `--progress`.
fn is_progress(words: &Words, at: usize) -> bool
    ensures { IsTrue result ↔ ((1 ≤ at) × (word words.now at ≡ codes "--progress")) }
{
    1 <= at && at <= words.len() && words.get(at) == "--progress"
}

/// Whether this fault is that a word can't be read, and that word is `--progress`.
fn is_at_progress(words: &Words, fault: UsageFault) -> bool
    ensures { IsTrue result ↔ IsAtProgress words.now fault }
{
    match fault {
        UsageFault::Word(WordFault::UnknownLong { word }) => is_progress(words, word),
        _ => false,
    }
}

/// Whether the words ask to follow a rescue: as the words of a picture they can't be read, and the first one that can't
/// is `--progress`. So the value of an option may be that word, and so may an operand after `--`.
pub fn asks_to_follow(alloc: Global, words: &Words) -> Result<bool, NoMemory>
    ensures follows { IfOk result (λ follows. IsTrue follows ↔ AskToFollow words.now) }

    // Words that ask for a picture get it.
    ensures draws { IfOk result (λ follows. (c : Asked) → Asks words.now c → follows ≡ false) }
{
    match read_command(alloc, words) {
        Ok(_) => Ok(false),
        Err(CommandError::NoMemory) => Err(NoMemory),
        Err(CommandError::Usage { fault, .. }) => Ok(is_at_progress(words, fault)),
    }
}
