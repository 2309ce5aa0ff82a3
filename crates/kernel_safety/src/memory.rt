//! A rescue over a kernel in memory.
ghost use Rattle.std.specs.Prelude.{◌≡◌, []};
ghost use Rattle.kernel_files.specs.Log.{told_of};
ghost use Rattle.site_record.specs.Memory.{nothing_noted};
ghost use Rattle.folder_site.specs.Told.{site_told};
ghost use Rattle.program_promise.specs.World.{told};
ghost use Rattle.ddrescue_cli.specs.Told.{handed};
ghost use Rattle.rescue_safety.specs.Rescue.{Rescue};
ghost use Rattle.kernel_safety.specs.Stops.{HoldsAtStops};

use crate::rescue::ddrescue_over_kernel;
use crash_site::site::Site;
use faulty_source::source::Source;
use folder_site::folder::KernelSite;
use kernel_files::kernel::Kernel;
use kernel_files::memory::MemoryKernel;
use option_words::words::Words;
use rescue_console::clock::Clock;
use rescue_console::console::Console;
use site_record::memory::MemoryRecorder;
use site_record::recorder::Recorder;
use task_files::ending::Ending;

/// A call of `ddrescue` over files in memory, of which there are none at first. So each such rescue holds at its stops,
/// with no premise on the kernel.
pub fn ddrescue_in_memory<S: Source, C: Clock, P: Console>(
    words: &Words,
    source: &mut S,
    clock: &mut C,
    console: &mut P,
    rt: HostRuntime,
) -> (Ending, KernelSite<MemoryKernel, MemoryRecorder>)
    ensures { (r : Rescue) → r.did.call.told ≡ told words.now result.0
        (handed (S.state source.old) (site_told (told_of []) nothing_noted) (C.state clock.old) (P.state console.old))
        (handed (S.state source.new) (⟦<KernelSite<MemoryKernel, MemoryRecorder> as Site>⟧.state result.1)
        (C.state clock.new) (P.state console.new))
        → ∥ HoldsAtStops r (⟦<MemoryKernel as Kernel>⟧.told result.1.files.kernel)
        (⟦<MemoryRecorder as Recorder>⟧.told result.1.files.recorder) ∥₁ }
{
    let alloc = rt.alloc();
    let kernel = MemoryKernel::new(alloc);
    let recorder = MemoryRecorder::new(alloc);
    let mut site = KernelSite::over(kernel, recorder, rt);
    let ending = ddrescue_over_kernel(alloc, words, source, &mut site, clock, console);
    (ending, site)
}
