//! What is printed of a file of scenes that was played.
ghost use Rattle.std.specs.Prelude.{◌≤◌, length};

use crate::refusal::Refusal;
use crate::shown::append_escaped;
use crate::texts::{count_differing, count_scenes, first_difference, line_from, line_number};
use std::io::Write;

/// The end of the name of a file of scenes.
pub const ENDING: &str = ".scene";

/// Adds how many scenes a file has and how many differ, and the first line that differs.
pub fn append_report(
    out: &mut Vec<u8>,
    path: &str,
    wanted: &[u8],
    found: &[u8],
) -> Result<(), Refusal> {
    let subject = subject_of(path);
    let scenes = count_scenes(wanted);
    let differing = count_differing(wanted, found);
    writeln!(out, "{subject}: {scenes} scenes, {differing} differ")?;
    match first_difference(wanted, found) {
        Some(place) => append_difference(out, wanted, found, place),
        None => Ok(()),
    }
}

/// The name of a file without its folder and its ending.
fn subject_of(path: &str) -> &str {
    let name = match path.rsplit_once('/') {
        Some((_, name)) => name,
        None => path,
    };
    name.strip_suffix(ENDING).unwrap_or(name)
}

/// Adds the line that begins at a place, as it is wanted and as it was found.
fn append_difference(
    out: &mut Vec<u8>,
    wanted: &[u8],
    found: &[u8],
    place: usize,
) -> Result<(), Refusal>
    requires wanted { place ≤ length wanted.now }
    requires found { place ≤ length found.now }
{
    let number = line_number(wanted, place);
    write!(out, "    line {number}: wanted ")?;
    append_quoted(out, line_from(wanted, place))?;
    out.extend_from_slice(b", found ")?;
    append_quoted(out, line_from(found, place))?;
    out.push(b'\n')?;
    Ok(())
}

/// Adds a line in quotes. The newline of a line isn't shown, and a line without one is told from it.
fn append_quoted(out: &mut Vec<u8>, line: &[u8]) -> Result<(), Refusal> {
    if line.is_empty() {
        out.extend_from_slice(b"the end")?;
        return Ok(());
    }
    out.push(b'"')?;
    append_escaped(out, line.strip_suffix(b"\n").unwrap_or(line))?;
    out.push(b'"')?;
    if !line.ends_with(b"\n") {
        out.extend_from_slice(b" without a newline")?;
    }
    Ok(())
}
