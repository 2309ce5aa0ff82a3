//! The rescue of a sample.
ghost use Rattle.std.specs.Prelude.{◌≡◌, IfOk};
ghost use Rattle.run_options.specs.Settings.{HasPlaces};
ghost use Rattle.rescue_domain.specs.Parts.{covers};
ghost use Rattle.rescue_rules.specs.Counts.{counts_of};
ghost use Rattle.rescue_phases.specs.Copying.{MayCopy};
ghost use Rattle.ddrescue_words.specs.Asking.{IsSampleSize};
ghost use Rattle.task_rescue.specs.Running.{AreReady};
ghost use Rattle.task_rescue.specs.Sampled.{IsLineOf, RanSample, RanToEnd, TellsSample};

use crate::ready::{begin, make_ready};
use crate::run::run_phases;
use block_list::status::Status;
use block_list::tiles::{NoMemory, Tiles};
use crash_site::site::Site;
use ddrescue_words::command::sample_command;
use faulty_source::source::Source;
use map_counts::summary::count_statuses;
use mapfile_text::heading::{Heading, Program};
use rescue_console::clock::Clock;
use rescue_console::console::Console;
use rescue_core::phases::{Copying, Rescue};
use rescue_domain::domain::Domain;
use rescue_rules::report::Counts;
use rescue_sample::blank::{BlankConsole, BlankSite};
use rescue_sample::clock::StillClock;
use rescue_sample::line::sample_line;
use rescue_sample::source::SampleSource;
use std::alloc::Global;
use task_files::checked::make_names;
use task_files::ending::{Ended, Ending};
use task_files::load::{LoadedFiles, RunMap, start_fresh};
use task_files::opening::say_line;

/// The command line that the saved maps of a sample's rescue show.
const COMMAND_LINE: &str = "ddrescue -r 1 in out map";

/// How much of a domain is finished in a map, and how much of it failed.
fn counts_in<T: Tiles>(domain: &Domain, tiles: &T) -> Counts
    ensures { result ≡ counts_of (covers domain.now) (T.statuses tiles.now) }
{
    let end = tiles.end();
    let finished = count_statuses(tiles, domain, &[Status::Finished], 0, end);
    let failed = count_statuses(
        tiles,
        domain,
        &[Status::NonTrimmed, Status::NonScraped, Status::BadSector],
        0,
        end,
    );
    Counts {
        rescued: finished.bytes,
        failed,
    }
}

/// Makes the phases of a rescue and its last save, and counts its last map. Nothing comes of a rescue that stops.
// The map is counted between the phases and the last save, which takes it: so this isn't `run_rescue`.
fn count_run<S: Source, K: Clock>(
    rescue: Rescue<Copying, RunMap>,
    source: &mut S,
    site: &mut BlankSite,
    clock: &mut K,
) -> Result<Counts, NoMemory>
    requires copying { MayCopy rescue }
    requires places { HasPlaces rescue.settings (covers rescue.domain) }
    requires ready { AreReady (S.state source.old) (⟦<BlankSite as Site>⟧.state site.old) }
    ensures { IfOk result (λ counts. RanToEnd rescue counts (S.state source.old) (S.state source.new)
        (K.state clock.old) (K.state clock.new)) }
{
    let mut console = BlankConsole;
    let finished = match run_phases(rescue, source, site, clock, &mut console) {
        Ok(finished) => finished,
        Err(_stopped) => return Err(NoMemory),
    };
    let counts = counts_in(finished.domain(), finished.tiles());
    let closed = finished.close(site, &mut console);
    if closed.end.is_done() {
        Ok(counts)
    } else {
        Err(NoMemory)
    }
}

/// Rescues a sample, and counts the last map. Nothing is written, and a run stops only for lack of memory.
fn count_sample<S: Source, K: Clock>(
    alloc: Global,
    source: &mut S,
    clock: &mut K,
) -> Result<Counts, NoMemory>
    ensures { IfOk result (λ counts. RanSample counts (S.state source.old) (S.state source.new)
        (K.state clock.old) (K.state clock.new)) }
{
    let mut site = BlankSite::new();
    let command = sample_command();
    let names = make_names(alloc, command.mapfile)?;
    let heading = Heading::new(alloc, Program::Ddrescue, COMMAND_LINE)?;
    let Ok(end) = source.open_input(command.infile) else {
        return Err(NoMemory);
    };
    let Ok(_kind) = site.image_open(command.outfile, true) else {
        return Err(NoMemory);
    };
    let Ok(map) = start_fresh(alloc, end) else {
        return Err(NoMemory);
    };
    let loaded = LoadedFiles {
        domain_map: None,
        map,
        end,
    };
    let ready = make_ready(alloc, command, loaded)?;
    let moment = clock.now_ms();
    let rescue = begin(ready, command, names, heading, moment, false);
    count_run(rescue, source, &mut site, clock)
}

/// The line of a sample of `kib` KiB. A run with too many readings for the clock to tell them would want more memory
/// than there is.
fn run_sample(alloc: Global, kib: u64) -> Result<Vec<u8>, NoMemory>
    requires { IsSampleSize kib }
    ensures { IfOk result (λ line. IsLineOf kib line.items) }
{
    let mut source = SampleSource::new(alloc, kib)?;
    let mut clock = StillClock::new();
    let counts = count_sample(alloc, &mut source, &mut clock)?;
    if !clock.tells() {
        return Err(NoMemory);
    }
    sample_line(alloc, kib, source.answered(), counts)
}

/// Rescues a sample, and says its line if that is heard.
pub fn tell_sample<C: Console>(alloc: Global, kib: u64, heard: bool, console: &mut C) -> Ended
    requires { IsSampleSize kib }
    ensures { TellsSample kib heard result.heard result.ending (C.state console.old) (C.state console.new) }
{
    let Ok(line) = run_sample(alloc, kib) else {
        let ending = Ending::NoMemory;
        return Ended { ending, heard };
    };
    Ended {
        ending: Ending::Done,
        heard: say_line(console, &Some(line), heard),
    }
}
