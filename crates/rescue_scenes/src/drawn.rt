//! Runs of ddrescueshow.
use ddrescueshow_cli::ending::ShowEnding;
use ddrescueshow_cli::show::ddrescueshow;
use memory_console::memory::MemoryConsole;
use memory_site::memory::MemorySite;
use option_words::words::Words;
use scene_text::refusal::{Refusal, refuse_starved};
use std::alloc::Global;

/// Runs ddrescueshow, on no terminal. If it finds no memory there is no answer: a scene can't ask for that.
pub(crate) fn draw(
    alloc: Global,
    words: &Words,
    site: &mut MemorySite,
    console: &mut MemoryConsole,
) -> Result<ShowEnding, Refusal> {
    let starved = site.starved();
    let ending = ddrescueshow(alloc, words, site, console, false);
    refuse_starved(ending.code(), starved, site, console)?;
    Ok(ending)
}
