//! What the definitions mean.
ghost use Rattle.option_words.specs.Laws.{FaultDependsOnMeanings, HasOneFault, HasOneReading, IsReadOrHasFault, NoWordsLackMemory, OperandsAreWords, ReadingDependsOnMeanings, ReadingHasNoFault, TableRowsAreApart, TableRowsFit};

/// No words have two readings.
pub fn words_have_one_reading()
    ensures { HasOneReading }
{}

/// No words have two first faults.
pub fn words_have_one_fault()
    ensures { HasOneFault }
{}

/// Words that have a reading are never refused.
pub fn words_that_are_read_have_no_fault()
    ensures { ReadingHasNoFault }
{}

/// Lack of memory is no fault of words.
pub fn words_never_lack_memory()
    ensures { NoWordsLackMemory }
{}

/// All words have a reading or a fault.
pub fn words_are_read_or_have_a_fault()
    ensures { IsReadOrHasFault }
{}

/// Each operand of a reading is a word.
pub fn operands_are_words()
    ensures { OperandsAreWords }
{}

/// The readings of words depend on nothing of the rows but their letters, their names and whether they take values.
pub fn readings_depend_on_meanings()
    ensures { ReadingDependsOnMeanings }
{}

/// The faults of words depend on nothing of the rows but their letters, their names and whether they take values.
pub fn faults_depend_on_meanings()
    ensures { FaultDependsOnMeanings }
{}

/// The rows of a table have letters and names that may be an option's.
pub fn rows_of_a_table_fit()
    ensures { TableRowsFit }
{}

/// The rows of a table have letters and names of their own.
pub fn rows_of_a_table_are_apart()
    ensures { TableRowsAreApart }
{}
