//! A rescue over a kernel.
ghost use Rattle.std.specs.Prelude.{◌≡◌, false, IsTrue, []};
ghost use Rattle.program_promise.specs.World.{told};
ghost use Rattle.ddrescue_cli.specs.Told.{handed};
ghost use Rattle.rescue_safety.specs.Rescue.{Rescue};
ghost use Rattle.kernel_safety.specs.Stops.{HoldsAtStops};

use crash_site::site::Site;
use ddrescue_cli::rescue::ddrescue;
use faulty_source::source::Source;
use folder_site::folder::KernelSite;
use kernel_files::kernel::Kernel;
use option_words::words::Words;
use rescue_console::clock::Clock;
use rescue_console::console::Console;
use site_record::recorder::Recorder;
use std::alloc::Global;
use task_files::ending::Ending;

/// A call of `ddrescue` over the files of a kernel, as the program makes it. If the call is a rescue whose kernel and
/// recorder tell, a stop of the kernel at any of its calls leaves what the headline says.
pub fn ddrescue_over_kernel<S: Source, K: Kernel, R: Recorder, C: Clock, P: Console>(
    alloc: Global,
    words: &Words,
    source: &mut S,
    site: &mut KernelSite<K, R>,
    clock: &mut C,
    console: &mut P,
) -> Ending
    requires new { IsTrue (⟦<KernelSite<K, R> as Site>⟧.state site.old).tells
        → (⟦<KernelSite<K, R> as Site>⟧.state site.old).calls ≡ [] }
    requires draft { (⟦<KernelSite<K, R> as Site>⟧.state site.old).is_drafting ≡ false }
    ensures { (r : Rescue) → r.did.call.told ≡ told words.now result
        (handed (S.state source.old) (⟦<KernelSite<K, R> as Site>⟧.state site.old) (C.state clock.old)
        (P.state console.old))
        (handed (S.state source.new) (⟦<KernelSite<K, R> as Site>⟧.state site.new) (C.state clock.new)
        (P.state console.new))
        → ∥ HoldsAtStops r (K.told site.new.files.kernel) (R.told site.new.files.recorder) ∥₁ }
{
    let ending = ddrescue(alloc, words, source, site, clock, console);
    site.any_stop();
    ending
}
