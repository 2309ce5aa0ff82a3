//! ddrescuelog: reads, compares, prints, makes and removes the mapfiles of rescues.
#![tactic(auto)]

use advice::advise;
use ddrescuelog_cli::log::ddrescuelog;
use folder_site::folder::FolderSite;
use program_advice::put::put_line;
use program_start::status::status_of;
use program_start::streams::{ClosedStream, fill_streams};
use program_start::words::collect_words;
use rescue_console::console::Channel;
use rescue_console::system::{StdConsole, StdFeed};
use std::io;
use std::process::ExitCode;

mod advice;

fn run(rt: HostRuntime) -> io::Result<u8> {
    fill_streams(&rt, ClosedStream::Faulty)?;
    let words = collect_words(&rt, "ddrescuelog")?;
    let mut site = FolderSite::new(rt.clone()?);
    let mut feed = StdFeed::new(rt.clone()?);
    let mut console = StdConsole::new(rt.clone()?);
    let ending = ddrescuelog(rt.alloc(), &words, &mut site, &mut feed, &mut console);
    let (fed, put) = (feed.trouble(), console.trouble(Channel::Out));
    put_line(&mut console, advise(&rt, &words, ending, &site, fed, put));
    Ok(ending.code())
}

fn main(rt: HostRuntime) -> ExitCode {
    ExitCode::from(status_of(run(rt)))
}
