//! The run of a rescue: its phases, and after them the last save and the last line.
ghost use Rattle.std.specs.Prelude.{◌≡◌, IfOk};
ghost use Rattle.run_options.specs.Settings.{HasPlaces};
ghost use Rattle.faulty_source.specs.SourceChanges.{Stays as SourceStays};
ghost use Rattle.crash_site.specs.SiteChanges.{Keeps as SiteKeeps};
ghost use Rattle.rescue_console.specs.ClockState.{Keeps as ClockKeeps};
ghost use Rattle.rescue_domain.specs.Parts.{covers};
ghost use Rattle.rescue_rules.specs.declared.phase.Phase.TheVariants.{Retrying as LastPhase};
ghost use Rattle.rescue_rules.specs.Across.{across};
ghost use Rattle.rescue_phases.specs.Turns.{PhaseEnds};
ghost use Rattle.rescue_phases.specs.Copying.{MayCopy};
ghost use Rattle.rescue_phases.specs.Past.{IsPast};
ghost use Rattle.task_files.specs.Answers.{Causes, drafting_left};
ghost use Rattle.task_files.specs.Work.{answer_of};
ghost use Rattle.task_rescue.specs.Running.{AreReady, WentToEnd};

use crash_site::site::Site;
use faulty_source::source::Source;
use rescue_console::clock::Clock;
use rescue_console::console::Console;
use rescue_core::closing::Closed;
use rescue_core::phases::{Copying, Finished, Rescue, Stopped};
use rescue_phases::copy::run_copying;
use rescue_phases::phases::{run_retrying, run_scraping, run_trimming};
use task_files::load::RunMap;

/// Makes the phases of a rescue in order: it copies, trims, scrapes and retries.
pub fn run_phases<S: Source, D: Site, K: Clock, C: Console>(
    rescue: Rescue<Copying, RunMap>,
    source: &mut S,
    site: &mut D,
    clock: &mut K,
    console: &mut C,
) -> Result<Rescue<Finished, RunMap>, Stopped<RunMap>>
    requires copying { MayCopy rescue }
    requires places { HasPlaces rescue.settings (covers rescue.domain) }
    requires ready { AreReady (S.state source.old) (D.state site.old) }
    ensures ends { PhaseEnds rescue result (across (S.state source.old) (S.state source.new) (D.state site.old)
        (D.state site.new) (K.state clock.old) (K.state clock.new) (C.state console.old) (C.state console.new)) }
    ensures past { IfOk result (λ r. IsPast LastPhase r) }
{
    let copied = run_copying(rescue, source, site, clock, console)?;
    let trimmed = run_trimming(copied, source, site, clock, console)?;
    let scraped = run_scraping(trimmed, source, site, clock, console)?;
    run_retrying(scraped, source, site, clock, console)
}

/// Makes the phases of a rescue in order, and saves the map at its end, or where it stopped; without a mapfile the
/// output is made durable then. A line says now and then how far it has come, and one how it ended.
pub fn run_rescue<S: Source, D: Site, K: Clock, C: Console>(
    rescue: Rescue<Copying, RunMap>,
    source: &mut S,
    site: &mut D,
    clock: &mut K,
    console: &mut C,
) -> Closed
    requires copying { MayCopy rescue }
    requires places { HasPlaces rescue.settings (covers rescue.domain) }
    requires ready { AreReady (S.state source.old) (D.state site.old) }
    ensures went { WentToEnd rescue result.end result.heard (across (S.state source.old) (S.state source.new)
        (D.state site.old) (D.state site.new) (K.state clock.old) (K.state clock.new) (C.state console.old)
        (C.state console.new)) }
    ensures cause { Causes (answer_of result.end) (S.state source.old) (S.state source.new) (D.state site.old)
        (D.state site.new) }
    ensures draft { (D.state site.new).is_drafting ≡ drafting_left (answer_of result.end) }
    ensures source { SourceStays (S.state source.old) (S.state source.new) }
    ensures site { SiteKeeps (D.state site.old) (D.state site.new) }
    ensures clock { ClockKeeps (K.state clock.old) (K.state clock.new) }
{
    match run_phases(rescue, source, site, clock, console) {
        Ok(finished) => finished.close(site, console),
        Err(stopped) => stopped.close(site, console),
    }
}
