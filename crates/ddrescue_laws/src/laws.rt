//! What the definitions mean.
ghost use Rattle.ddrescue_laws.specs.Laws.{DoneIsSaved, FaultsAreOfSteps, FilesAreLeft, GivenIsInput, HasOneVerdict, HoldsAtEnd, IsDoneUnless, MapsAreThere, ReadsAreARun, SampleIsOneLine};
ghost use Rattle.ddrescue_laws.specs.ModeLaws.{DoneIsFilled, DoneIsGenerated, FillFaultsAreOfSteps, FillHasOneVerdict, FillIsDoneUnless, GenerateFaultsAreOfSteps, GenerateHasOneVerdict, GenerateIsDoneUnless, RefusedFillLeaves, RefusedGenerateLeaves, UnbegunFillLeaves, UnbegunGenerateLeaves};

/// What an answer before the first read leaves of the files is known by the answer.
pub fn files_are_left()
    ensures { FilesAreLeft }
{}

/// What was read is a run, which asks few times and ends well.
pub fn reads_are_a_run()
    ensures { ReadsAreARun }
{}

/// An answer that names a failed call names one that a step makes.
pub fn faults_are_of_steps()
    ensures { FaultsAreOfSteps }
{}

/// After each answer that follows the barrier, the files as they read keep the promise.
pub fn files_hold_at_the_end()
    ensures { HoldsAtEnd }
{}

/// A finished rescue saved the map of all its reads, left nothing wanted, and the output holds what that map promises.
pub fn done_is_saved()
    ensures { DoneIsSaved }
{}

/// What the reads of a rescue gave is the input's own.
pub fn given_is_the_inputs()
    ensures { GivenIsInput }
{}

/// Two calls for samples of one size say the same line.
pub fn a_sample_is_one_line()
    ensures { SampleIsOneLine }
{}

/// Words and files have one verdict at most.
pub fn words_and_files_have_one_verdict()
    ensures { HasOneVerdict }
{}

/// For any files there are maps as the files say.
pub fn maps_are_there()
    ensures { MapsAreThere }
{}

/// If nothing failed, nothing is refused and memory doesn't run out, the rescue is done.
pub fn nothing_else_ends_a_rescue()
    ensures { IsDoneUnless }
{}

/// If nothing fails and nothing is refused, the pattern comes whole and memory doesn't run out, a filling is done.
pub fn a_filling_is_done_unless()
    ensures { FillIsDoneUnless }
{}

/// If nothing fails and nothing is refused, and memory doesn't run out, a generating is done.
pub fn a_generating_is_done_unless()
    ensures { GenerateIsDoneUnless }
{}

/// An answer of a filling that names a failed call names one that a step makes.
pub fn faults_are_of_a_filling()
    ensures { FillFaultsAreOfSteps }
{}

/// An answer of a generating that names a failed call names one that a step makes. A generating writes nothing into the
/// outfile.
pub fn faults_are_of_a_generating()
    ensures { GenerateFaultsAreOfSteps }
{}

/// A filling that came to no sweep leaves every file, except that an absent output may be made, empty.
pub fn a_filling_leaves_files_before_it_begins()
    ensures { UnbegunFillLeaves }
{}

/// A generating that came to no sweep leaves every file.
pub fn a_generating_leaves_files_before_it_begins()
    ensures { UnbegunGenerateLeaves }
{}

/// A filling whose answer comes before its sweep leaves every file as it was, except that an absent output may be made,
/// empty.
pub fn a_refused_filling_leaves()
    ensures { RefusedFillLeaves }
{}

/// A generating whose answer comes before its sweep leaves every file as it was.
pub fn a_refused_generating_leaves()
    ensures { RefusedGenerateLeaves }
{}

/// A command, a pattern's length and files have one verdict at most of a filling whose pattern comes whole.
pub fn a_filling_has_one_verdict()
    ensures { FillHasOneVerdict }
{}

/// A command, an input's length and files have one verdict at most of a generating.
pub fn a_generating_has_one_verdict()
    ensures { GenerateHasOneVerdict }
{}

/// A filling that is done left its map, and the pattern in each piece.
pub fn what_is_done_is_filled()
    ensures { DoneIsFilled }
{}

/// A generating that is done left a map of what the output held, and the output.
pub fn what_is_done_is_generated()
    ensures { DoneIsGenerated }
{}
