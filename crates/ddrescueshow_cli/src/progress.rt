//! The line that says how far a rescue has come.
ghost use Rattle.std.specs.Prelude.{◌≡◌, ◌≤◌, ◌++◌, true, codes, OnOk, IfOk};
ghost use Rattle.std.specs.Fmt.{decimal};
ghost use Rattle.rescue_rules.specs.Lines.{last_front, phase_text};
ghost use Rattle.ddrescueshow_cli.specs.Progress.{bytes_text, done_text, errors_text, failed_text, fit, left_by, left_text, over_text, passed_text, progress_text, rate_text, share_part, shown_text, time_text, where_text};

use crate::figures::{add_share, share};
use crate::text::{add, add_bytes, add_number};
use block_list::areas::Count;
use block_list::tiles::NoMemory;
use itoa::Buffer;
use mapfile_text::state::Current;
use rescue_lines::lines::{Figures, Head, name_of_end};
use rescue_rules::report::phase_name;
use std::alloc::Global;

/// How many columns a line has at most.
const COLUMNS: usize = 79;

/// Adds a part if it fits.
fn add_fitting(text: &mut Vec<u8>, part: &[u8]) -> Result<(), NoMemory>
    ensures { OnOk result (text.new.items ≡ fit text.old.items part.now) }
{
    if text.len().saturating_add(part.len()) > COLUMNS {
        return Ok(());
    }
    Ok(text.extend_from_slice(part)?)
}

/// A phase, and its pass.
fn phase_text(alloc: Global, current: Current, pass: u64) -> Result<Vec<u8>, NoMemory>
    ensures { IfOk result (λ text. text.items ≡ phase_text current ++ codes " " ++ decimal pass) }
{
    let mut text = Vec::new(alloc);
    add(&mut text, phase_name(current))?;
    add(&mut text, " ")?;
    add(&mut text, Buffer::new().format(pass))?;
    Ok(text)
}

/// That a run is over.
fn end_text(alloc: Global, done: bool) -> Result<Vec<u8>, NoMemory>
    ensures { IfOk result (λ text. text.items ≡ last_front done) }
{
    let mut text = Vec::new(alloc);
    add(&mut text, name_of_end(done))?;
    Ok(text)
}

/// The phase and its pass, or that the run is over.
fn where_text(alloc: Global, head: Head) -> Result<Vec<u8>, NoMemory>
    ensures { IfOk result (λ text. text.items ≡ where_text head) }
{
    match head {
        Head::Phase { current, pass } => phase_text(alloc, current, pass),
        Head::Last { done } => end_text(alloc, done),
    }
}

/// How many bytes are rescued.
fn bytes_text(alloc: Global, rescued: u64) -> Result<Vec<u8>, NoMemory>
    ensures { IfOk result (λ text. text.items ≡ bytes_text rescued) }
{
    let mut text = Vec::new(alloc);
    add(&mut text, ", ")?;
    add_number(&mut text, rescued, " B rescued")?;
    Ok(text)
}

/// What share is rescued.
fn share_part(alloc: Global, rescued: u64, size: u64) -> Result<Vec<u8>, NoMemory>
    requires { rescued ≤ size }
    ensures { IfOk result (λ text. text.items ≡ share_part rescued size) }
{
    let mut text = Vec::new(alloc);
    add(&mut text, ", ")?;
    add_share(&mut text, share(rescued, size))?;
    add(&mut text, " %")?;
    Ok(text)
}

/// How much is rescued.
fn done_text(alloc: Global, size: Option<u64>, rescued: u64) -> Result<Vec<u8>, NoMemory>
    ensures { IfOk result (λ text. text.items ≡ done_text size rescued) }
{
    let Some(size) = size else {
        return bytes_text(alloc, rescued);
    };
    if size < rescued {
        bytes_text(alloc, rescued)
    } else {
        share_part(alloc, rescued, size)
    }
}

/// What failed.
fn failed_text(alloc: Global, failed: Count) -> Result<Vec<u8>, NoMemory>
    ensures { IfOk result (λ text. text.items ≡ failed_text failed) }
{
    let mut text = Vec::new(alloc);
    add(&mut text, ", ")?;
    add_number(&mut text, failed.bytes, " B failed in ")?;
    add_number(&mut text, failed.areas, " areas")?;
    Ok(text)
}

/// How often a read failed.
fn errors_text(alloc: Global, errors: u64) -> Result<Vec<u8>, NoMemory>
    ensures { IfOk result (λ text. text.items ≡ errors_text errors) }
{
    let mut text = Vec::new(alloc);
    add(&mut text, ", ")?;
    add_number(&mut text, errors, " errors")?;
    Ok(text)
}

/// The rate.
fn rate_text(alloc: Global, rate: Option<u64>) -> Result<Vec<u8>, NoMemory>
    ensures { IfOk result (λ text. text.items ≡ rate_text rate) }
{
    let mut text = Vec::new(alloc);
    let Some(rate) = rate else {
        return Ok(text);
    };
    add(&mut text, ", ")?;
    add_number(&mut text, rate / 1000, " kB/s")?;
    Ok(text)
}

/// A time in hours and minutes.
fn time_text(alloc: Global, seconds: u64) -> Result<Vec<u8>, NoMemory>
    ensures { IfOk result (λ text. text.items ≡ time_text seconds) }
{
    let mut text = Vec::new(alloc);
    add(&mut text, ", ")?;
    add_number(&mut text, seconds / 3600, ":")?;
    add(&mut text, Buffer::new().format(seconds / 600 % 6))?;
    add_number(&mut text, seconds / 60 % 10, " left")?;
    Ok(text)
}

/// In which time the rest of the domain is rescued at a rate, if there is a rest and a rate.
fn left_by(alloc: Global, size: u64, rescued: u64, rate: u64) -> Result<Vec<u8>, NoMemory>
    ensures { IfOk result (λ text. text.items ≡ left_by size rescued rate) }
{
    if rate == 0 {
        return Ok(Vec::new(alloc));
    }
    if rescued < size {
        time_text(alloc, (size - rescued) / rate)
    } else {
        Ok(Vec::new(alloc))
    }
}

/// How long the rest of the domain takes. Empty without a rest, a known size, or a known rate other than 0.
fn left_text(
    alloc: Global,
    size: Option<u64>,
    rate: Option<u64>,
    rescued: u64,
) -> Result<Vec<u8>, NoMemory>
    ensures { IfOk result (λ text. text.items ≡ left_text size rate rescued) }
{
    let Some(size) = size else {
        return Ok(Vec::new(alloc));
    };
    let Some(rate) = rate else {
        return Ok(Vec::new(alloc));
    };
    left_by(alloc, size, rescued, rate)
}

/// The line of a rescue's progress, by the size of the domain and the rate, if they are known.
fn progress_text(
    alloc: Global,
    size: Option<u64>,
    rate: Option<u64>,
    figures: &Figures,
) -> Result<Vec<u8>, NoMemory>
    ensures { IfOk result (λ text. text.items ≡ progress_text size rate figures.now) }
{
    let mut text = where_text(alloc, figures.head)?;
    add_fitting(&mut text, &done_text(alloc, size, figures.rescued)?)?;
    add_fitting(&mut text, &failed_text(alloc, figures.failed)?)?;
    add_fitting(&mut text, &errors_text(alloc, figures.errors)?)?;
    add_fitting(&mut text, &rate_text(alloc, rate)?)?;
    add_fitting(&mut text, &left_text(alloc, size, rate, figures.rescued)?)?;
    Ok(text)
}

/// Puts a text over the line before it on a terminal.
fn over_text(alloc: Global, text: &[u8]) -> Result<Vec<u8>, NoMemory>
    ensures { IfOk result (λ over. over.items ≡ over_text text.now) }
{
    let mut over = Vec::new(alloc);
    add(&mut over, "\r")?;
    over.extend_from_slice(text)?;
    add_bytes(&mut over, b' ', COLUMNS.saturating_sub(text.len()) as u64)?;
    Ok(over)
}

/// What is put of a rescue's line whose figures have this text.
fn shown_text(alloc: Global, terminal: bool, text: Vec<u8>) -> Result<Vec<u8>, NoMemory>
    ensures { IfOk result (λ shown. shown.items ≡ shown_text terminal text.items) }
{
    if terminal {
        return over_text(alloc, &text);
    }
    let mut line = text;
    add(&mut line, "\n")?;
    Ok(line)
}

/// What is put of another line over a line of figures.
fn passed_over(alloc: Global, line: &[u8]) -> Result<Vec<u8>, NoMemory>
    ensures { IfOk result (λ text. text.items ≡ passed_text true line.now) }
{
    let mut text = over_text(alloc, &[])?;
    add(&mut text, "\r")?;
    text.extend_from_slice(line)?;
    Ok(text)
}

/// What is put of another line, whether a line of figures is up on the terminal or not.
pub(crate) fn passed_text(alloc: Global, is_up: bool, line: &[u8]) -> Result<Vec<u8>, NoMemory>
    ensures { IfOk result (λ text. text.items ≡ passed_text is_up line.now) }
{
    if is_up {
        return passed_over(alloc, line);
    }
    let mut text = Vec::new(alloc);
    text.extend_from_slice(line)?;
    Ok(text)
}

/// What is put of a rescue's line.
pub(crate) fn text_of_figures(
    alloc: Global,
    terminal: bool,
    size: Option<u64>,
    rate: Option<u64>,
    figures: &Figures,
) -> Result<Vec<u8>, NoMemory>
    ensures { IfOk result (λ text. text.items ≡ shown_text terminal (progress_text size rate figures.now)) }
{
    let text = progress_text(alloc, size, rate, figures)?;
    shown_text(alloc, terminal, text)
}
