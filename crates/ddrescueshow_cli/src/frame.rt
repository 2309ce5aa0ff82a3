//! Into which cells a picture divides what it shows.
ghost use Rattle.std.specs.Prelude.{◌≡◌, ◌+◌, ◌*◌, ◌<◌, ◌≤◌, ◌^◌, min};
ghost use Rattle.ddrescueshow_words.specs.Command.{AreInLimits};
ghost use Rattle.ddrescueshow_cli.specs.Cells.{IsFrame, begin_of, cells_in, cells_of_row, end_of, end_shown, frame_of, rows_in, sectors_of};

use ddrescueshow_words::options::ShowOptions;

/// The cells of a picture: from where to where it goes, the size of a cell, and how many cells a row has.
#[derive(Clone, Copy, Debug, PartialEq, Eq)]
pub struct Frame {
    pub from: u64,
    pub to: u64,
    pub cell: u64,
    pub width: u64,
}

/// The end of what is shown of a map that ends at `end`.
fn end_shown(from: u64, size: Option<u64>, end: u64) -> u64
    requires { end < 2 ^ 63 }
    ensures end { result ≡ end_shown from size end }
    ensures most { result ≤ end }
{
    match size {
        Some(size) => end.min(from.saturating_add(size)),
        None => end,
    }
}

/// How many sectors a cell has.
fn sectors_of(span: u64, sector: u64, cells: u64) -> u64
    requires some { 0 < sector * cells }
    requires short { sector * cells < 2 ^ 64 }
    ensures { result ≡ sectors_of span sector cells }
{
    span.div_ceil(sector * cells).max(1)
}

impl Frame {
    /// The picture of a map that ends at `end`.
    pub(crate) fn of(options: &ShowOptions, end: u64) -> Frame
        requires limits { AreInLimits options.now }
        requires short { end < 2 ^ 63 }
        ensures frame { result ≡ frame_of options.now end }
        ensures is { IsFrame result }
        ensures within { result.to ≤ end }
    {
        let from = options.input_position;
        let to = end_shown(from, options.size, end);
        let cells = options.width * options.rows;
        let sectors = sectors_of(to.saturating_sub(from), options.sector, cells);
        Frame {
            from,
            to,
            cell: options.sector * sectors,
            width: options.width,
        }
    }

    /// How many cells there are.
    fn cells(&self) -> u64
        requires { IsFrame self.now }
        ensures { result ≡ cells_in self.now }
    {
        self.to.saturating_sub(self.from).div_ceil(self.cell)
    }

    /// How many rows of cells there are.
    pub(crate) fn rows(&self) -> u64
        requires { IsFrame self.now }
        ensures { result ≡ rows_in self.now }
    {
        self.cells().div_ceil(self.width)
    }

    /// How many cells a row has.
    pub(crate) fn cells_of_row(&self, row: u64) -> u64
        requires { IsFrame self.now }
        ensures { result ≡ cells_of_row self.now row }
    {
        let before = row.saturating_mul(self.width);
        self.width.min(self.cells().saturating_sub(before))
    }

    /// Where a cell begins.
    pub(crate) fn begin_of(&self, cell: u64) -> u64
        requires frame { IsFrame self.now }
        requires within { cell < cells_in self.now }
        ensures begin { result ≡ begin_of self.now cell }
        ensures within { result < self.now.to }
    {
        self.from + cell * self.cell
    }

    /// Where a cell ends.
    pub(crate) fn end_of(&self, cell: u64) -> u64
        requires frame { IsFrame self.now }
        requires within { cell < cells_in self.now }
        ensures end { result ≡ end_of self.now cell }
        ensures within { result ≤ self.now.to }
    {
        self.to.min(self.begin_of(cell).saturating_add(self.cell))
    }
}
