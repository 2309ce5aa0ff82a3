//! Runs of ddrescueverify.
ghost use Rattle.std.specs.Prelude.{◌≡◌, false};
ghost use Rattle.memory_site.specs.MemoryState.{state_of};

use ddrescueverify_cli::ending::VerifyEnding;
use ddrescueverify_cli::verify::ddrescueverify;
use memory_console::memory::MemoryConsole;
use memory_site::memory::MemorySite;
use memory_source::memory::MemorySource;
use option_words::words::Words;
use scene_text::refusal::{Refusal, refuse_starved};
use std::alloc::Global;

/// Runs ddrescueverify. If it finds no memory there is no answer: a scene can't ask for that.
pub(crate) fn verify(
    alloc: Global,
    words: &Words,
    source: &mut MemorySource,
    site: &mut MemorySite,
    console: &mut MemoryConsole,
) -> Result<VerifyEnding, Refusal>
    requires { (state_of site.old).is_drafting ≡ false }
{
    let starved = site.starved();
    let ending = ddrescueverify(alloc, words, source, site, console);
    refuse_starved(ending.code(), starved, site, console)?;
    Ok(ending)
}
