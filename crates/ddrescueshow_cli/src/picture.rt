//! The text of a picture, in each of its forms.
ghost use Rattle.std.specs.Prelude.{◌≡◌, ◌<◌, ◌≤◌, ◌++◌, flat_map, length, IfOk, OnOk};
ghost use Rattle.std.specs.List.{range_with_len};
ghost use Rattle.rescue_domain.specs.Parts.{covers};
ghost use Rattle.map_counts.specs.At.{IsWithinMap};
ghost use Rattle.ddrescueshow_cli.specs.Cells.{IsFrame, rows_in};
ghost use Rattle.ddrescueshow_cli.specs.Picture.{end_text, foot_text, front_text, head_text, line_of, picture_text, row_text};

use crate::form::Form;
use crate::frame::Frame;
use crate::plain::{add_colors, add_legend, add_lines};
use crate::runs::add_runs;
use crate::subject::Subject;
use crate::svg::{add_svg_foot, add_svg_front, add_svg_head};
use crate::text::{add, add_padded};
use block_list::tiles::{NoMemory, Tiles};
use map_counts::pieces::Nearby;
use map_counts::summary::Summary;
use std::alloc::Global;

/// Adds how a picture begins.
fn add_head(
    text: &mut Vec<u8>,
    form: Form,
    frame: &Frame,
    summary: &Summary,
) -> Result<(), NoMemory>
    requires frame { IsFrame frame.now }
    requires part { (line_of summary.now 4).bytes ≤ summary.now.domain }
    ensures { OnOk result (text.new.items ≡ text.old.items ++ head_text form frame.now summary.now) }
{
    match form {
        Form::Svg => add_svg_head(text, frame, summary),
        Form::Plain | Form::Colored => add_lines(text, frame, summary),
    }
}

/// Adds how a row begins.
fn add_front(text: &mut Vec<u8>, form: Form, frame: &Frame, row: u64) -> Result<(), NoMemory>
    requires frame { IsFrame frame.now }
    requires within { row < rows_in frame.now }
    ensures { OnOk result (text.new.items ≡ text.old.items ++ front_text form frame.now row) }
{
    let position = frame.begin_of(row * frame.width);
    match form {
        Form::Svg => add_svg_front(text, row, position),
        Form::Plain | Form::Colored => add_padded(text, frame.to, position),
    }
}

/// Adds how a row ends.
fn add_end(text: &mut Vec<u8>, form: Form) -> Result<(), NoMemory>
    ensures { OnOk result (text.new.items ≡ text.old.items ++ end_text form) }
{
    match form {
        Form::Svg => add(text, "</g>\n"),
        Form::Plain | Form::Colored => add(text, "\n"),
    }
}

/// Adds a row.
fn add_row<T: Tiles>(
    text: &mut Vec<u8>,
    form: Form,
    subject: &Subject<'_, T>,
    near: &mut Nearby,
    row: u64,
) -> Result<(), NoMemory>
    requires frame { IsFrame subject.now.frame }
    requires within { row < rows_in subject.now.frame }
    requires map { subject.now.frame.to ≤ length (T.statuses subject.now.tiles.now) }
    ensures { OnOk result (text.new.items ≡ text.old.items
        ++ row_text form subject.now.frame (covers subject.now.domain.now) (T.statuses subject.now.tiles.now) row) }
{
    add_front(text, form, &subject.frame, row)?;
    let first = row * subject.frame.width;
    let count = subject.frame.cells_of_row(row);
    add_runs(text, form, subject, near, first, count)?;
    add_end(text, form)
}

/// Adds all rows. The walk goes along the map once.
fn add_rows<T: Tiles>(
    text: &mut Vec<u8>,
    form: Form,
    subject: &Subject<'_, T>,
) -> Result<(), NoMemory>
    requires frame { IsFrame subject.now.frame }
    requires map { subject.now.frame.to ≤ length (T.statuses subject.now.tiles.now) }
    ensures { OnOk result (text.new.items ≡ text.old.items
        ++ flat_map (row_text form subject.now.frame (covers subject.now.domain.now)
        (T.statuses subject.now.tiles.now)) (range_with_len 0 (rows_in subject.now.frame))) }
{
    let mut near = Nearby::start();
    let rows = subject.frame.rows();
    let mut row = 0;
    while row < rows {
        add_row(text, form, subject, &mut near, row)?;
        row += 1;
    }
    Ok(())
}

/// Adds what the cells mean.
fn add_foot(text: &mut Vec<u8>, form: Form, frame: &Frame) -> Result<(), NoMemory>
    requires { IsFrame frame.now }
    ensures { OnOk result (text.new.items ≡ text.old.items ++ foot_text form frame.now) }
{
    match form {
        Form::Svg => add_svg_foot(text, frame),
        Form::Plain => add_legend(text, frame),
        Form::Colored => add_colors(text, frame),
    }
}

/// The whole text of a picture.
pub(crate) fn draw<T: Tiles>(
    alloc: Global,
    form: Form,
    subject: &Subject<'_, T>,
) -> Result<Vec<u8>, NoMemory>
    requires frame { IsFrame subject.now.frame }
    requires map { subject.now.frame.to ≤ length (T.statuses subject.now.tiles.now) }
    requires within { IsWithinMap (covers subject.now.domain.now) (T.statuses subject.now.tiles.now) }
    ensures { IfOk result (λ text. text.items ≡ picture_text form subject.now.frame
        (covers subject.now.domain.now) (T.statuses subject.now.tiles.now)) }
{
    let summary = Summary::of(subject.tiles, subject.domain);
    let mut text = Vec::new(alloc);
    add_head(&mut text, form, &subject.frame, &summary)?;
    add_rows(&mut text, form, subject)?;
    add_foot(&mut text, form, &subject.frame)?;
    Ok(text)
}
