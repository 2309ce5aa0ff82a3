//! What the definitions mean.
ghost use Rattle.ddrescuelog_cli.specs.Laws.{AnswersAreFound, AnswersFit, CreatedIsRead, FilesHaveOneVerdict, FilesStand, HasOneVerdict, IsFoundUnless, LogKeepsPromises, MapfileIsLeft, MapsAreThere};

/// Work over some maps has one verdict at most.
pub fn works_have_one_verdict()
    ensures { HasOneVerdict }
{}

/// Words, files and a list have one verdict at most, whatever maps two calls went by.
pub fn files_have_one_verdict()
    ensures { FilesHaveOneVerdict }
{}

/// An answer of a mode is what it finds in the maps, whatever the objects tell.
pub fn answers_are_found()
    ensures { AnswersAreFound }
{}

/// An answer of the work comes only if the words ask for what it speaks of.
pub fn answers_fit()
    ensures { AnswersFit }
{}

/// A mode that only reads leaves every file as it read.
pub fn files_stand()
    ensures { FilesStand }
{}

/// Once a map was made, or removed, and that was answered, the mapfile reads as that map, or is absent.
pub fn the_mapfile_is_left()
    ensures { MapfileIsLeft }
{}

/// Whatever files are found, there are maps by which a command goes.
pub fn maps_are_there()
    ensures { MapsAreThere }
{}

/// Nothing else is answered than what the mode finds, a refusal, a failure or lack of memory.
pub fn nothing_else_is_answered()
    ensures { IsFoundUnless }
{}

/// A map that is made of a list, and saved, is read again as it was.
pub fn created_is_read()
    ensures { CreatedIsRead }
{}

/// `ddrescuelog` keeps what every program promises.
pub fn promises_are_kept()
    ensures { LogKeepsPromises }
{}
