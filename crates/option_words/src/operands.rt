//! The operands of a command line.
ghost use Rattle.std.specs.Prelude.{◌≡◌, All};
ghost use Rattle.option_words.specs.Values.{IsWord, empty_operand};

use crate::words::Words;

/// The first operand that is empty.
pub fn find_empty(words: &Words, operands: &[usize]) -> Option<usize>
    requires { All (IsWord words.now) operands.now }
    ensures { result ≡ empty_operand words.now operands.now }
{
    for operand in operands {
        if words.get(*operand).is_empty() {
            return Some(*operand);
        }
    }
    None
}
