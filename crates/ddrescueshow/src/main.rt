//! ddrescueshow: draws a mapfile, so that what is rescued is seen at a glance, or follows a rescue.
#![tactic(auto)]

use advice::{advise, advise_follower};
use ddrescueshow_cli::asked::asks_to_follow;
use ddrescueshow_cli::follow::{follow, refuse, starve};
use ddrescueshow_cli::show::ddrescueshow;
use ddrescueshow_words::progress::asks_progress;
use folder_site::folder::FolderSite;
use program_advice::put::put_line;
use program_start::status::status_of;
use program_start::streams::{ClosedStream, fill_streams};
use program_start::words::collect_words;
use rescue_console::console::Channel;
use rescue_console::system::{StdConsole, StdFeed};
use std::io::{self, IsTerminal};
use std::process::ExitCode;

mod advice;

/// Follows a rescue whose lines come on standard input, if there is no other argument.
fn follow_rescue(
    rt: HostRuntime,
    alone: bool,
    mut console: StdConsole,
    terminal: bool,
) -> io::Result<u8> {
    if !alone {
        return Ok(refuse(&mut console).code());
    }
    let mut feed = StdFeed::new(rt.clone()?);
    let ending = follow(rt.alloc(), &mut feed, &mut console, terminal);
    let (fed, put) = (feed.trouble(), console.trouble(Channel::Out));
    put_line(&mut console, advise_follower(ending, fed, put, terminal));
    Ok(ending.code())
}

/// Says that there wasn't enough memory to read the arguments.
fn starved(mut console: StdConsole) -> u8 {
    let ending = starve(&mut console);
    put_line(&mut console, advise_follower(ending, None, None, false));
    ending.code()
}

fn run(rt: HostRuntime) -> io::Result<u8> {
    fill_streams(&rt, ClosedStream::Faulty)?;
    let words = collect_words(&rt, "ddrescueshow")?;
    let mut console = StdConsole::new(rt.clone()?);
    let terminal = rt.stdout().is_terminal();
    if asks_progress(&words) {
        // The word may be the value of an option.
        match asks_to_follow(rt.alloc(), &words) {
            Ok(true) => return follow_rescue(rt, words.len() == 1, console, terminal),
            Ok(false) => {}
            Err(_) => return Ok(starved(console)),
        }
    }
    let mut site = FolderSite::new(rt.clone()?);
    let ending = ddrescueshow(rt.alloc(), &words, &mut site, &mut console, terminal);
    let put = console.trouble(Channel::Out);
    put_line(&mut console, advise(&rt, &words, ending, &site, put));
    Ok(ending.code())
}

fn main(rt: HostRuntime) -> ExitCode {
    ExitCode::from(status_of(run(rt)))
}
