//! Runs of ddrescueplan.
use ddrescueplan_cli::ending::PlanEnding;
use ddrescueplan_cli::plan::ddrescueplan;
use memory_console::memory::MemoryConsole;
use memory_site::memory::MemorySite;
use option_words::words::Words;
use scene_text::refusal::{Refusal, refuse_starved};
use std::alloc::Global;

/// Runs ddrescueplan. If it finds no memory there is no answer: a scene can't ask for that.
pub(crate) fn plan(
    alloc: Global,
    words: &Words,
    site: &mut MemorySite,
    console: &mut MemoryConsole,
) -> Result<PlanEnding, Refusal> {
    let starved = site.starved();
    let ending = ddrescueplan(alloc, words, site, console);
    refuse_starved(ending.code(), starved, site, console)?;
    Ok(ending)
}
