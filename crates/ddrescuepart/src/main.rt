//! ddrescuepart: prints the map of one partition of a disk, which a rescue takes as its domain.
#![tactic(auto)]

use advice::{advise, line_after};
use ddrescuepart_cli::part::ddrescuepart;
use file_source::file::FileSource;
use program_advice::put::put_line;
use program_start::status::status_of;
use program_start::streams::{ClosedStream, fill_streams};
use program_start::words::collect_words;
use real_files::launcher::Launcher;
use rescue_console::console::Channel;
use rescue_console::system::StdConsole;
use std::io;
use std::process::ExitCode;

mod advice;

fn run(rt: HostRuntime) -> io::Result<u8> {
    fill_streams(&rt, ClosedStream::Faulty)?;
    let words = collect_words(&rt, "ddrescuepart")?;
    let mut source = FileSource::new(rt.clone()?);
    source.follow(Launcher::find(&rt)?);
    let mut console = StdConsole::new(rt.clone()?);
    let ending = ddrescuepart(rt.alloc(), &words, &mut source, &mut console);
    let put = console.trouble(Channel::Out);
    put_line(&mut console, advise(&rt, &words, ending, &source, put));
    put_line(&mut console, line_after(&rt, &words, &source));
    Ok(ending.code())
}

fn main(rt: HostRuntime) -> ExitCode {
    ExitCode::from(status_of(run(rt)))
}
