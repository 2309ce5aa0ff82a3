//! What the definitions mean.
ghost use Rattle.std.specs.Prelude.{ℕ, List};
ghost use Rattle.ddrescuelog_words.specs.Laws.{HasOneMeaning, OneModeIsWanted};
ghost use Rattle.ddrescuelog_words.specs.Examples.{BlockComesFirst, EndComesLast, LastOfAModeCounts, ModesComeFirst};

/// Words ask for one thing at most, are refused for one fault at most, and never both.
pub fn words_have_one_meaning()
    ensures { (words : List (List ℕ)) → HasOneMeaning words }
{}

/// Words with one mode are never refused for their modes.
pub fn one_mode_is_wanted()
    ensures { OneModeIsWanted }
{}

/// Small command lines ask for what their users mean.
pub fn small_command_lines_are_read()
    ensures modes { ModesComeFirst }
    ensures last { LastOfAModeCounts }
    ensures block { BlockComesFirst }
    ensures end { EndComesLast }
{}
