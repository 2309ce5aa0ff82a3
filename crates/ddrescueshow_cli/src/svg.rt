//! The parts of a picture in SVG.
ghost use Rattle.std.specs.Prelude.{◌≡◌, ◌+◌, ◌*◌, ◌<◌, ◌≤◌, ◌++◌, codes, OnOk};
ghost use Rattle.ddrescueshow_cli.specs.Cells.{IsFrame};
ghost use Rattle.ddrescueshow_cli.specs.Picture.{cell_text, figures_text, line_of};
ghost use Rattle.ddrescueshow_cli.specs.Svg.{class_of, fill_text, first_meanings, group_text, meaning_text, name_text, other_meanings, pattern_text, rect_text, svg_foot, svg_front, svg_head, svg_lines, svg_open, svg_style, svg_top};

use crate::figures::add_figures;
use crate::frame::Frame;
use crate::plain::add_cell_size;
use crate::runs::Run;
use crate::text::{add, add_number};
use block_list::status::Status;
use block_list::tiles::NoMemory;
use map_counts::summary::Summary;

/// How the statuses without a pattern are filled.
const STYLE: &str =
    "<style>.f{fill:#2b2}.n{fill:#ccc}.t{fill:url(#t)}.s{fill:url(#s)}.b{fill:url(#b)}.o{fill:none}</style>\n";

/// Adds a color, and a shape on it.
fn add_fill(text: &mut Vec<u8>, color: &str, shape: &str) -> Result<(), NoMemory>
    ensures { OnOk result (text.new.items ≡ text.old.items ++ fill_text color.now shape.now) }
{
    add(text, color)?;
    add(
        text,
        "' d='M0 0h10v16H0z'/><path stroke='#000' stroke-width='2' d='",
    )?;
    add(text, shape)?;
    add(text, "'/></pattern>\n")?;
    Ok(())
}

/// Adds a cell of a color with a shape on it.
fn add_pattern(text: &mut Vec<u8>, name: &str, color: &str, shape: &str) -> Result<(), NoMemory>
    ensures { OnOk result (text.new.items ≡ text.old.items ++ pattern_text name.now color.now shape.now) }
{
    add(text, "<pattern id='")?;
    add(text, name)?;
    add(
        text,
        "' width='10' height='16' patternUnits='userSpaceOnUse'><path fill='",
    )?;
    add_fill(text, color, shape)?;
    Ok(())
}

/// Adds how each status is filled.
fn add_style(text: &mut Vec<u8>) -> Result<(), NoMemory>
    ensures { OnOk result (text.new.items ≡ text.old.items ++ svg_style) }
{
    add(text, STYLE)?;
    add_pattern(text, "t", "#fd0", "M4 8h2")?;
    add_pattern(text, "s", "#48f", "M0 16L10 0")?;
    add_pattern(text, "b", "#e22", "M0 16L10 0M0 0l10 16")
}

/// Adds where the picture is.
fn add_open(text: &mut Vec<u8>, frame: &Frame) -> Result<(), NoMemory>
    requires { IsFrame frame.now }
    ensures { OnOk result (text.new.items ≡ text.old.items ++ svg_open frame.now) }
{
    add(
        text,
        "<svg xmlns='http://www.w3.org/2000/svg' viewBox='-160 -60 ",
    )?;
    add_number(text, (10 * frame.width).max(720) + 180, " ")?;
    add_number(
        text,
        16 * frame.rows() + 220,
        "' font-family='monospace' font-size='12'>\n<title>",
    )?;
    Ok(())
}

/// Adds where the picture is, the title, and white ground for the largest picture.
fn add_top(text: &mut Vec<u8>, frame: &Frame, summary: &Summary) -> Result<(), NoMemory>
    requires frame { IsFrame frame.now }
    requires part { (line_of summary.now 4).bytes ≤ summary.now.domain }
    ensures { OnOk result (text.new.items ≡ text.old.items ++ svg_top frame.now (figures_text summary.now)) }
{
    add_open(text, frame)?;
    add_figures(text, summary)?;
    add(
        text,
        "</title>\n<path fill='#fff' d='M-160-60h11000v17000h-11000z'/>\n",
    )
}

/// Adds the line of the figures.
fn add_figures_line(text: &mut Vec<u8>, summary: &Summary) -> Result<(), NoMemory>
    requires { (line_of summary.now 4).bytes ≤ summary.now.domain }
    ensures { OnOk result (text.new.items
        ≡ text.old.items ++ codes "<text y='-40'>" ++ figures_text summary.now ++ codes "</text>\n") }
{
    add(text, "<text y='-40'>")?;
    add_figures(text, summary)?;
    add(text, "</text>\n")
}

/// Adds the line of the size of a cell.
fn add_cell_line(text: &mut Vec<u8>, frame: &Frame) -> Result<(), NoMemory>
    ensures { OnOk result (text.new.items
        ≡ text.old.items ++ codes "<text y='-20'>" ++ cell_text frame.now ++ codes "</text>\n") }
{
    add(text, "<text y='-20'>")?;
    add_cell_size(text, frame)?;
    add(text, "</text>\n")
}

/// Adds the line of the figures, and the line of the size of a cell.
fn add_svg_lines(text: &mut Vec<u8>, frame: &Frame, summary: &Summary) -> Result<(), NoMemory>
    requires { (line_of summary.now 4).bytes ≤ summary.now.domain }
    ensures { OnOk result (text.new.items
        ≡ text.old.items ++ svg_lines (figures_text summary.now) (cell_text frame.now)) }
{
    add_figures_line(text, summary)?;
    add_cell_line(text, frame)
}

/// Adds the title, how statuses are filled, and the two lines of text.
pub(crate) fn add_svg_head(
    text: &mut Vec<u8>,
    frame: &Frame,
    summary: &Summary,
) -> Result<(), NoMemory>
    requires frame { IsFrame frame.now }
    requires part { (line_of summary.now 4).bytes ≤ summary.now.domain }
    ensures { OnOk result (text.new.items
        ≡ text.old.items ++ svg_head frame.now (figures_text summary.now) (cell_text frame.now)) }
{
    add_top(text, frame, summary)?;
    add_style(text)?;
    add_svg_lines(text, frame, summary)
}

/// The letter of what a cell shows.
fn class_of(shown: Option<Status>) -> &'static str
    ensures { result.now ≡ class_of shown }
{
    match shown {
        None => "o",
        Some(Status::Finished) => "f",
        Some(Status::NonTried) => "n",
        Some(Status::NonTrimmed) => "t",
        Some(Status::NonScraped) => "s",
        Some(Status::BadSector) => "b",
    }
}

/// Adds that what follows is that far below the first row.
fn add_group(text: &mut Vec<u8>, y: u64) -> Result<(), NoMemory>
    ensures { OnOk result (text.new.items ≡ text.old.items ++ group_text y) }
{
    add(text, "<g transform='translate(0 ")?;
    add_number(text, y, ")'>")
}

/// Adds how a row begins.
pub(crate) fn add_svg_front(text: &mut Vec<u8>, row: u64, position: u64) -> Result<(), NoMemory>
    requires { row ≤ 1000 }
    ensures { OnOk result (text.new.items ≡ text.old.items ++ svg_front row position) }
{
    add_group(text, 16 * row)?;
    add(text, "<text x='-8' y='12' text-anchor='end'>")?;
    add_number(text, position, "</text>\n")
}

/// Adds how a rectangle begins, up to its place.
fn add_class(text: &mut Vec<u8>, shown: Option<Status>) -> Result<(), NoMemory>
    ensures { OnOk result (text.new.items
        ≡ text.old.items ++ codes "<rect class='" ++ class_of shown ++ codes "' x='") }
{
    add(text, "<rect class='")?;
    add(text, class_of(shown))?;
    add(text, "' x='")
}

/// Adds the rectangle of a run.
pub(crate) fn add_rect(text: &mut Vec<u8>, run: Run) -> Result<(), NoMemory>
    requires from { run.from ≤ 1000 }
    requires count { run.count ≤ 1000 }
    ensures { OnOk result (text.new.items ≡ text.old.items ++ rect_text run) }
{
    add_class(text, run.shown)?;
    add_number(text, 10 * run.from, "' width='")?;
    add_number(text, 10 * run.count, "' height='16'/>\n")
}

/// Adds what a cell of the legend means.
fn add_name(text: &mut Vec<u8>, name: &str) -> Result<(), NoMemory>
    ensures { OnOk result (text.new.items ≡ text.old.items ++ name_text name.now) }
{
    add(text, "<text x='20' y='12'>")?;
    add(text, name)?;
    add(text, "</text></g>\n")?;
    Ok(())
}

/// Adds a line of the legend.
fn add_meaning(
    text: &mut Vec<u8>,
    y: u64,
    shown: Option<Status>,
    name: &str,
) -> Result<(), NoMemory>
    ensures { OnOk result (text.new.items ≡ text.old.items ++ meaning_text y shown name.now) }
{
    add_group(text, y)?;
    add_rect(
        text,
        Run {
            from: 0,
            count: 1,
            shown,
        },
    )?;
    add_name(text, name)
}

/// Adds the first three lines of the legend.
fn add_first(text: &mut Vec<u8>) -> Result<(), NoMemory>
    ensures { OnOk result (text.new.items ≡ text.old.items ++ first_meanings) }
{
    add_meaning(text, 20, Some(Status::Finished), "finished")?;
    add_meaning(text, 40, Some(Status::NonTried), "non-tried")?;
    add_meaning(text, 60, Some(Status::NonTrimmed), "non-trimmed")
}

/// Adds the last three lines of the legend.
fn add_others(text: &mut Vec<u8>) -> Result<(), NoMemory>
    ensures { OnOk result (text.new.items ≡ text.old.items ++ other_meanings) }
{
    add_meaning(text, 80, Some(Status::NonScraped), "non-scraped")?;
    add_meaning(text, 100, Some(Status::BadSector), "bad-sector")?;
    add_meaning(text, 120, None, "blank: not in the domain")
}

/// Adds the legend.
pub(crate) fn add_svg_foot(text: &mut Vec<u8>, frame: &Frame) -> Result<(), NoMemory>
    requires { IsFrame frame.now }
    ensures { OnOk result (text.new.items ≡ text.old.items ++ svg_foot frame.now) }
{
    add_group(text, 16 * frame.rows())?;
    add_first(text)?;
    add_others(text)?;
    add(text, "</g>\n</svg>\n")?;
    Ok(())
}
