//! What the definitions mean.
ghost use Rattle.std.specs.Prelude.{ℕ, List};
ghost use Rattle.option_words.specs.Grammar.{Grammar, HasOneMeaning};
ghost use Rattle.option_words.specs.ValueLaws.{LastCounts, NoneCounts};

/// By any grammar words ask for one thing at most, are refused for one fault at most, and never both.
pub fn words_have_one_meaning<C>()
    ensures { (g : Grammar C) (words : List (List ℕ)) → HasOneMeaning g words }
{}

/// Of several options of a letter the last one counts.
pub fn last_option_counts()
    ensures { LastCounts }
{}

/// If no option of a letter is given, none counts.
pub fn none_counts_where_none_is_given()
    ensures { NoneCounts }
{}
