//! What a word looks like: options, or none.
ghost use Rattle.std.specs.Prelude.{◌≡◌};
ghost use Rattle.option_words.specs.Forms.{form_of};

/// What a word looks like.
#[derive(Clone, Copy)]
pub(crate) enum Form {
    /// No hyphen in front, or nothing after it.
    Plain,
    /// `--`.
    Stop,
    /// `--` and a long name, maybe with a value.
    Name,
    /// `-` and letters.
    Letters,
}

/// What a word looks like.
pub(crate) fn find_form(word: &str) -> Form
    ensures { result ≡ form_of word.now }
{
    match word.as_bytes() {
        [b'-', b'-'] => Form::Stop,
        [b'-', b'-', ..] => Form::Name,
        [b'-', _, ..] => Form::Letters,
        _ => Form::Plain,
    }
}
