//! ddrescueplan: prints the reads that a rescue would make over a damage that a test map shows.
#![tactic(auto)]

use advice::advise;
use ddrescueplan_cli::plan::ddrescueplan;
use folder_site::folder::FolderSite;
use program_advice::put::put_line;
use program_start::status::status_of;
use program_start::streams::{ClosedStream, fill_streams};
use program_start::words::collect_words;
use rescue_console::console::Channel;
use rescue_console::system::StdConsole;
use std::io;
use std::process::ExitCode;
use warnings::warn;

mod advice;
mod warnings;

fn run(rt: HostRuntime) -> io::Result<u8> {
    fill_streams(&rt, ClosedStream::Faulty)?;
    let words = collect_words(&rt, "ddrescueplan")?;
    let mut site = FolderSite::new(rt.clone()?);
    let mut console = StdConsole::new(rt.clone()?);
    warn(&rt, &words, &mut console);
    let ending = ddrescueplan(rt.alloc(), &words, &mut site, &mut console);
    let put = console.trouble(Channel::Out);
    put_line(&mut console, advise(&rt, &words, ending, &site, put));
    Ok(ending.code())
}

fn main(rt: HostRuntime) -> ExitCode {
    ExitCode::from(status_of(run(rt)))
}
