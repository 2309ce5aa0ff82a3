//! The name and the value of a long option.
ghost use Rattle.std.specs.Prelude.{◌≡◌, ◌<◌, length, drop, IfSome};
ghost use Rattle.option_words.specs.Forms.{form_of};
ghost use Rattle.option_words.specs.Meanings.{equals_sign, name_before, value_after};
ghost use Rattle.option_words.specs.declared.form.Form.TheVariants.{Name as IsName};

use crate::reading::Spot;

/// A long name, and the value after its `=`.
#[derive(Clone, Copy)]
pub(crate) struct LongName<'a> {
    pub name: &'a [u8],
    pub value: Option<Spot>,
}

/// Where the first `=` is.
fn find_sign(text: &[u8]) -> Option<usize>
    ensures value { result ≡ equals_sign text.now }
    ensures within { IfSome result (λ k. k < length text.now) }
{
    text.iter().position(|byte| *byte == b'=')
}

/// Parts a word after its two hyphens into name and value.
pub(crate) fn split_name(n: usize, word: &str) -> LongName<'_>
    requires { form_of word.now ≡ IsName }
    ensures name { result.name.now ≡ name_before (equals_sign (drop 2 word.now)) (drop 2 word.now) }
    ensures value { result.value ≡ value_after n (equals_sign (drop 2 word.now)) }
{
    let text = &word.as_bytes()[2..];
    match find_sign(text) {
        Some(k) => LongName {
            name: &text[..k],
            value: Some(Spot {
                word: n,
                from: k + 3,
            }),
        },
        None => LongName {
            name: text,
            value: None,
        },
    }
}
