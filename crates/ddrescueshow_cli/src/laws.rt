//! What the definitions mean.
ghost use Rattle.ddrescueshow_cli.specs.Progress.{ProgressFits};
ghost use Rattle.ddrescueshow_cli.specs.PutLines.{AllLinesArePut};
ghost use Rattle.ddrescueshow_cli.specs.Laws.{AllCellsTile, AllIsFinishedAt100, CellsAreLeast, FilesStand, HasOneVerdict, MarksHideNothing, PlainRowsAreCells, RunsAreCells, ShowKeepsPromises, SmallPicture, SvgIsShort};

/// Each position of what is shown is in one cell, and no other position is in any.
pub fn cells_tile_the_picture()
    ensures { AllCellsTile }
{}

/// A cell is the least whole number of sectors with which the picture fits into its rows.
pub fn cells_are_least()
    ensures { CellsAreLeast }
{}

/// A cell hides nothing that is worse than what it shows, and shows nothing that isn't there.
pub fn marks_hide_nothing()
    ensures { MarksHideNothing }
{}

/// The runs of a row are its cells, each once.
pub fn runs_are_cells()
    ensures { RunsAreCells }
{}

/// Without color a row has the character of each of its cells.
pub fn plain_rows_are_cells()
    ensures { PlainRowsAreCells }
{}

/// A picture in SVG is shorter than 1 MiB.
pub fn svg_is_short()
    ensures { SvgIsShort }
{}

/// The picture says 100.00 % if and only if all is finished.
pub fn all_is_finished_at_100()
    ensures { AllIsFinishedAt100 }
{}

/// A small map has the picture that was drawn of it by hand.
pub fn a_small_map_is_drawn()
    ensures { SmallPicture }
{}

/// The line of a rescue's progress fits 79 columns.
pub fn progress_fits()
    ensures { ProgressFits }
{}

/// After `Done` all lines of standard input are on standard output, each as what is put of it.
pub fn all_lines_are_put()
    ensures { AllLinesArePut }
{}

/// Maps have one verdict at most.
pub fn maps_have_one_verdict()
    ensures { HasOneVerdict }
{}

/// After a call every file reads as it did before, and a stop at any moment finds each as it could be before.
pub fn files_stand()
    ensures { FilesStand }
{}

/// `ddrescueshow` keeps what every program promises.
pub fn promises_are_kept()
    ensures { ShowKeepsPromises }
{}
