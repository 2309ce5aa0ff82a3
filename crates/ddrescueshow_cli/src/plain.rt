//! The parts of a picture in text.
ghost use Rattle.std.specs.Prelude.{◌≡◌, ◌≤◌, ◌++◌, Some, codes, OnOk};
ghost use Rattle.block_list.specs.declared.status.Status.{Status as StatusOf};
ghost use Rattle.ddrescueshow_cli.specs.Picture.{block, cell_text, color_of, color_text, failed_colors, figures_text, foot_text, head_text, line_of, tried_colors};

use crate::figures::add_figures;
use crate::form::Form;
use crate::frame::Frame;
use crate::text::{add, add_bytes, add_number};
use block_list::status::Status;
use block_list::tiles::NoMemory;
use map_counts::summary::Summary;

/// What the characters mean.
const LEGEND: &str =
    "+ finished, ? non-tried, * non-trimmed, / non-scraped, - bad-sector, blank: not in the domain\n";

/// A terminal's sequence for the color of a cell.
fn color_of(shown: Option<Status>) -> &'static str
    ensures { result.now ≡ color_of shown }
{
    match shown {
        None => "\u{1b}[49m",
        Some(Status::Finished) => "\u{1b}[42m",
        Some(Status::NonTried) => "\u{1b}[100m",
        Some(Status::NonTrimmed) => "\u{1b}[43m",
        Some(Status::NonScraped) => "\u{1b}[44m",
        Some(Status::BadSector) => "\u{1b}[41m",
    }
}

/// Adds `count` cells in a color.
pub(crate) fn add_block(
    text: &mut Vec<u8>,
    shown: Option<Status>,
    count: u64,
) -> Result<(), NoMemory>
    ensures { OnOk result (text.new.items ≡ text.old.items ++ block shown count) }
{
    add(text, color_of(shown))?;
    add_bytes(text, b' ', count)?;
    add(text, "\u{1b}[0m")
}

/// Adds the size of a cell.
pub(crate) fn add_cell_size(text: &mut Vec<u8>, frame: &Frame) -> Result<(), NoMemory>
    ensures { OnOk result (text.new.items ≡ text.old.items ++ cell_text frame.now) }
{
    add(text, "a cell is ")?;
    add_number(text, frame.cell, " B")
}

/// Adds the line of the figures.
fn add_figures_line(text: &mut Vec<u8>, summary: &Summary) -> Result<(), NoMemory>
    requires { (line_of summary.now 4).bytes ≤ summary.now.domain }
    ensures { OnOk result (text.new.items ≡ text.old.items ++ figures_text summary.now ++ codes "\n") }
{
    add_figures(text, summary)?;
    add(text, "\n")
}

/// Adds the line of the figures, and the line of the size of a cell.
pub(crate) fn add_lines(
    text: &mut Vec<u8>,
    frame: &Frame,
    summary: &Summary,
) -> Result<(), NoMemory>
    requires { (line_of summary.now 4).bytes ≤ summary.now.domain }
    ensures { OnOk result (text.new.items ≡ text.old.items ++ head_text Form.Plain frame.now summary.now) }
{
    add_figures_line(text, summary)?;
    add_cell_size(text, frame)?;
    add(text, "\n")
}

/// Adds a cell of a status, and a text after it.
fn add_meaning(text: &mut Vec<u8>, status: Status, name: &str) -> Result<(), NoMemory>
    ensures { OnOk result (text.new.items ≡ text.old.items ++ color_text status name.now) }
{
    add_block(text, Some(status), 1)?;
    add(text, name)
}

/// Adds what the characters mean.
pub(crate) fn add_legend(text: &mut Vec<u8>, frame: &Frame) -> Result<(), NoMemory>
    ensures { OnOk result (text.new.items ≡ text.old.items ++ foot_text Form.Plain frame.now) }
{
    add(text, LEGEND)
}

/// Adds what the colors of finished and non-tried cells mean.
fn add_tried(text: &mut Vec<u8>) -> Result<(), NoMemory>
    ensures { OnOk result (text.new.items ≡ text.old.items ++ tried_colors) }
{
    add_meaning(text, Status::Finished, " finished, ")?;
    add_meaning(text, Status::NonTried, " non-tried, ")
}

/// Adds what the colors of failed cells mean, and what a blank cell means.
fn add_failed(text: &mut Vec<u8>) -> Result<(), NoMemory>
    ensures { OnOk result (text.new.items ≡ text.old.items ++ failed_colors) }
{
    add_meaning(text, Status::NonTrimmed, " non-trimmed, ")?;
    add_meaning(text, Status::NonScraped, " non-scraped, ")?;
    add_meaning(
        text,
        Status::BadSector,
        " bad-sector, blank: not in the domain\n",
    )
}

/// Adds what the colors mean.
pub(crate) fn add_colors(text: &mut Vec<u8>, frame: &Frame) -> Result<(), NoMemory>
    ensures { OnOk result (text.new.items ≡ text.old.items ++ foot_text Form.Colored frame.now) }
{
    add_tried(text)?;
    add_failed(text)
}
