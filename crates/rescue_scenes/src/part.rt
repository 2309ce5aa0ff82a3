//! A run of ddrescuepart.
use ddrescuepart_cli::ending::PartEnding;
use ddrescuepart_cli::part::ddrescuepart;
use memory_console::memory::MemoryConsole;
use memory_source::memory::MemorySource;
use option_words::words::Words;
use scene_text::refusal::Refusal;
use scene_text::results::{append_console, append_ending, append_reads};
use std::alloc::Global;

/// Runs ddrescuepart, and adds its results. If it finds no memory there is no answer: a scene can't ask for that.
pub(crate) fn play_part(
    alloc: Global,
    words: &Words,
    source: &mut MemorySource,
    console: &mut MemoryConsole,
    out: &mut Vec<u8>,
) -> Result<(), Refusal> {
    let read = source.journal().len();
    let ending = ddrescuepart(alloc, words, source, console);
    if matches!(ending, PartEnding::NoMemory) || console.starved() > 0 {
        return Err(Refusal::NoMemory);
    }
    append_reads(out, source.journal().get(read..).unwrap_or(&[]))?;
    append_console(out, console)?;
    match ending {
        PartEnding::Refused(refusal) => append_ending(out, &refusal, ending.code()),
        _ => append_ending(out, &ending, ending.code()),
    }
}
