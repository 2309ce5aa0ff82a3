//! Files of scenes: each is played, and its results are compared with the file.
use crate::player::play;
use scene_text::report::{ENDING, append_report};
use std::fs;
use std::io::{self, ErrorKind, Write};
use std::rt::Runtime;

/// The names of the files of scenes in the current folder, in ascending order.
pub(crate) fn scene_files<R: Runtime + AllocGlobal>(rt: &R) -> io::Result<Vec<String>> {
    let mut names = Vec::new(rt.alloc());
    for entry in fs::read_dir(rt, ".")? {
        let entry = entry?;
        let name = entry.file_name();
        if name.ends_with(ENDING) {
            names.push(String::from_str(rt.alloc(), name)?)?;
        }
    }
    names.sort()?;
    Ok(names)
}

/// Plays files one after the other, and prints a report on each. Answers whether each was read and has the results
/// that were found.
///
/// # Errors
///
/// `OutOfMemory`, and what printing answers. No further file is played then.
pub(crate) fn play_files<R: Runtime + AllocGlobal>(rt: &R, paths: &[String]) -> io::Result<bool> {
    let mut same = true;
    for path in paths {
        if !play_file(rt, path.as_str())? {
            same = false;
        }
    }
    Ok(same)
}

/// Plays a file, and prints a report on it. If the file can't be read, its cause is printed on standard error.
fn play_file<R: Runtime + AllocGlobal>(rt: &R, path: &str) -> io::Result<bool> {
    match fs::read(rt, path) {
        Ok(wanted) => compare(rt, path, &wanted),
        Err(error) if error.kind() == ErrorKind::OutOfMemory => Err(error),
        Err(error) => {
            let _ = eprintln!(rt; "rescue_scenes: {path}: {error}");
            Ok(false)
        }
    }
}

/// Plays the scenes of a file, and prints a report on them. Answers whether all results are as wanted.
fn compare<R: Runtime + AllocGlobal>(rt: &R, path: &str, wanted: &[u8]) -> io::Result<bool> {
    let mut found = Vec::new(rt.alloc());
    let _understood = play(rt.alloc(), wanted, &mut found)?;
    let mut report = Vec::new(rt.alloc());
    append_report(&mut report, path, wanted, &found).map_err(|_| io::Error::from(
        ErrorKind::OutOfMemory,
    ))?;
    let mut output = io::writer(rt);
    output.write_all(&report)?;
    output.flush()?;
    Ok(wanted == found.as_slice())
}
