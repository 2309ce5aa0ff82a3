//! What the definitions mean.
ghost use Rattle.std.specs.Prelude.{ℕ, List};
ghost use Rattle.ddrescueverify_words.specs.Laws.{HasOneMeaning};

/// Words ask for one thing at most, are refused for one fault at most, and never both.
pub fn words_have_one_meaning()
    ensures { (words : List (List ℕ)) → HasOneMeaning words }
{}
