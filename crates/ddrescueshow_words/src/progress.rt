//! Whether the words ask to follow a rescue, in place of a picture.
ghost use Rattle.std.specs.Prelude.{◌≡◌};
ghost use Rattle.ddrescueshow_words.specs.Progress.{asks_progress};

use option_words::words::Words;

/// Whether a word before the first `--` is `--progress`. It is no row of the options: it takes no other word beside it.
pub fn asks_progress(words: &Words) -> bool
    ensures { result ≡ asks_progress words.now }
{
    for i in 0..words.len() {
        let word = words.get(i + 1);
        if word == "--" {
            return false;
        }
        if word == "--progress" {
            return true;
        }
    }
    false
}
