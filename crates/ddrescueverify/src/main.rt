//! ddrescueverify: compares what a mapfile calls finished with the infile again.
#![tactic(auto)]

use advice::{advise, line_after};
use ddrescueverify_cli::verify::ddrescueverify;
use file_identity::identity::OpenInput;
use file_source::file::FileSource;
use folder_site::folder::FolderSite;
use program_advice::put::put_line;
use program_start::status::status_of;
use program_start::streams::{ClosedStream, fill_streams};
use program_start::words::collect_words;
use real_files::launcher::Launcher;
use rescue_console::console::Channel;
use rescue_console::system::StdConsole;
use std::io;
use std::process::ExitCode;
use warnings::warn;

mod advice;
mod warnings;

/// How many bytes of a file are read ahead at once.
const ROOM: usize = 65536;

fn run(rt: HostRuntime) -> io::Result<u8> {
    fill_streams(&rt, ClosedStream::Faulty)?;
    let words = collect_words(&rt, "ddrescueverify")?;
    let launcher = Launcher::find(&rt)?;
    let is_cached = launcher.is_cached();
    let input = OpenInput::new(rt.alloc())?;
    let mut source = FileSource::new(rt.clone()?);
    let mut site = FolderSite::new(rt.clone()?);
    source.note_in(input.share()?);
    source.follow(launcher);
    site.keep_apart(input);
    if let Ok(room) = vec![in rt.alloc(); 0; ROOM] {
        source.read_ahead_in(room);
    }
    if let Ok(room) = vec![in rt.alloc(); 0; ROOM] {
        site.read_ahead_in(room);
    }
    let mut console = StdConsole::new(rt.clone()?);
    warn(&rt, &words, &mut console, is_cached);
    let ending = ddrescueverify(rt.alloc(), &words, &mut source, &mut site, &mut console);
    let put = console.trouble(Channel::Out);
    put_line(
        &mut console,
        advise(&rt, &words, ending, &source, &site, put),
    );
    put_line(&mut console, line_after(&rt, &words, &source));
    Ok(ending.code())
}

fn main(rt: HostRuntime) -> ExitCode {
    ExitCode::from(status_of(run(rt)))
}
