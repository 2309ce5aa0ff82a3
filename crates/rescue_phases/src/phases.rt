//! The phases of a rescue after copying. Each goes on until its passes have no request left, and stops when a turn
//! does: for lack of memory, at a lost read, at a limit, or at a call on the output or the mapfile that failed.
ghost use Rattle.std.specs.Prelude.{◌≡◌, ◌+◌, true, false, IfOk, OnOk};
ghost use Rattle.run_options.specs.Settings.{HasPlaces};
ghost use Rattle.rescue_domain.specs.Parts.{covers};
ghost use Rattle.rescue_rules.specs.declared.phase.Phase.TheVariants.{Copying as CopyingPhase, Trimming as TrimmingPhase, Scraping as ScrapingPhase, Retrying as RetryingPhase};
ghost use Rattle.rescue_rules.specs.Across.{across};
ghost use Rattle.rescue_core.specs.Outside.{between, IsOpen, AreSame};
ghost use Rattle.rescue_core.specs.RunState.{setting_in};
ghost use Rattle.rescue_phases.specs.Turns.{TurnsEnd, PhaseEnds};
ghost use Rattle.rescue_phases.specs.Past.{IsPast};
ghost use Rattle.rescue_phases.specs.Passing.{IsBeforePass, PhaseLeavesNone, IsPassOf};

use block_list::tiles::Tiles;
use crash_site::site::Site;
use faulty_source::source::Source;
use rescue_console::clock::Clock;
use rescue_console::console::Console;
use rescue_core::outside::Outside;
use rescue_core::phases::{Finished, Rescue, Retrying, Scraping, Stage, Stopped, Trimming};
use rescue_rules::phase::Phase;
use rescue_rules::stop::Stop;

/// Goes on to the next pass, and takes turns until that has no request left.
fn run_pass<P: Stage, S: Source, D: Site, K: Clock, C: Console, T: Tiles>(
    rescue: &mut Rescue<P, T>,
    phase: Phase,
    pass: u32,
    outside: &mut Outside<S, D, K, C>,
) -> Result<(), Stop>
    requires before { IsBeforePass phase pass rescue.old }
    requires there { IsPassOf (setting_in rescue.old) phase pass }
    requires places { HasPlaces rescue.old.settings (covers rescue.old.domain) }
    requires open { IsOpen S.Source D.Site outside.old }
    requires no_draft { (D.state outside.old.site.now).is_drafting ≡ false }
    ensures ends { TurnsEnd result rescue.old rescue.new
        (between S.Source D.Site K.Clock C.Console outside.old outside.new) }
    ensures same { AreSame outside.old outside.new }
    ensures before { OnOk result (IsBeforePass phase (pass + 1) rescue.new) }
    ensures done { OnOk result (PhaseLeavesNone phase rescue.new) }
{
    rescue.begin_pass(phase, pass);
    'turns: while let Some(request) = rescue.next_request() {
        rescue.turn(request, outside)?;
    }
    Ok(())
}

/// Trims: finds the edges of what copying missed, unless that is off. Each non-trimmed run is read from its front, a
/// sector at a time, up to a failure, and then from its back; what lies between the two is left for scraping.
pub fn run_trimming<S: Source, D: Site, K: Clock, C: Console, T: Tiles>(
    rescue: Rescue<Trimming, T>,
    source: &mut S,
    site: &mut D,
    clock: &mut K,
    console: &mut C,
) -> Result<Rescue<Scraping, T>, Stopped<T>>
    requires past { IsPast CopyingPhase rescue }
    requires places { HasPlaces rescue.settings (covers rescue.domain) }
    requires input { (S.state source.old).is_open ≡ true }
    requires image { (D.state site.old).is_open ≡ true }
    requires no_draft { (D.state site.old).is_drafting ≡ false }
    ensures ends { PhaseEnds rescue result (across (S.state source.old) (S.state source.new) (D.state site.old)
        (D.state site.new) (K.state clock.old) (K.state clock.new) (C.state console.old) (C.state console.new)) }
    ensures past { IfOk result (λ r. IsPast TrimmingPhase r) }
{
    let mut rescue = rescue;
    if !rescue.settings().passes.trims {
        return Ok(rescue.end_trimming());
    }
    let mut outside = Outside {
        source,
        site,
        clock,
        console,
    };
    match run_pass(&mut rescue, Phase::Trimming, 1, &mut outside) {
        Ok(()) => Ok(rescue.end_trimming()),
        Err(stop) => Err(rescue.stopped(stop)),
    }
}

/// Scrapes: reads what trimming left, a sector at a time, unless that is off.
pub fn run_scraping<S: Source, D: Site, K: Clock, C: Console, T: Tiles>(
    rescue: Rescue<Scraping, T>,
    source: &mut S,
    site: &mut D,
    clock: &mut K,
    console: &mut C,
) -> Result<Rescue<Retrying, T>, Stopped<T>>
    requires past { IsPast TrimmingPhase rescue }
    requires places { HasPlaces rescue.settings (covers rescue.domain) }
    requires input { (S.state source.old).is_open ≡ true }
    requires image { (D.state site.old).is_open ≡ true }
    requires no_draft { (D.state site.old).is_drafting ≡ false }
    ensures ends { PhaseEnds rescue result (across (S.state source.old) (S.state source.new) (D.state site.old)
        (D.state site.new) (K.state clock.old) (K.state clock.new) (C.state console.old) (C.state console.new)) }
    ensures past { IfOk result (λ r. IsPast ScrapingPhase r) }
{
    let mut rescue = rescue;
    if !rescue.settings().passes.scrapes {
        return Ok(rescue.end_scraping());
    }
    let mut outside = Outside {
        source,
        site,
        clock,
        console,
    };
    match run_pass(&mut rescue, Phase::Scraping, 1, &mut outside) {
        Ok(()) => Ok(rescue.end_scraping()),
        Err(stop) => Err(rescue.stopped(stop)),
    }
}

/// Runs each pass of retrying.
fn run_retries<S: Source, D: Site, K: Clock, C: Console, T: Tiles>(
    rescue: &mut Rescue<Retrying, T>,
    outside: &mut Outside<S, D, K, C>,
) -> Result<(), Stop>
    requires past { IsPast ScrapingPhase rescue.old }
    requires places { HasPlaces rescue.old.settings (covers rescue.old.domain) }
    requires open { IsOpen S.Source D.Site outside.old }
    requires no_draft { (D.state outside.old.site.now).is_drafting ≡ false }
    ensures ends { TurnsEnd result rescue.old rescue.new
        (between S.Source D.Site K.Clock C.Console outside.old outside.new) }
    ensures same { AreSame outside.old outside.new }
    ensures past { OnOk result (IsPast RetryingPhase rescue.new) }
{
    'passes: for pass in 1..=rescue.settings().passes.retries {
        run_pass(rescue, Phase::Retrying, pass, outside)?;
    }
    Ok(())
}

/// Retries: reads the bad sectors again, in as many passes as were asked for.
pub fn run_retrying<S: Source, D: Site, K: Clock, C: Console, T: Tiles>(
    rescue: Rescue<Retrying, T>,
    source: &mut S,
    site: &mut D,
    clock: &mut K,
    console: &mut C,
) -> Result<Rescue<Finished, T>, Stopped<T>>
    requires past { IsPast ScrapingPhase rescue }
    requires places { HasPlaces rescue.settings (covers rescue.domain) }
    requires input { (S.state source.old).is_open ≡ true }
    requires image { (D.state site.old).is_open ≡ true }
    requires no_draft { (D.state site.old).is_drafting ≡ false }
    ensures ends { PhaseEnds rescue result (across (S.state source.old) (S.state source.new) (D.state site.old)
        (D.state site.new) (K.state clock.old) (K.state clock.new) (C.state console.old) (C.state console.new)) }
    ensures past { IfOk result (λ r. IsPast RetryingPhase r) }
{
    let mut rescue = rescue;
    let mut outside = Outside {
        source,
        site,
        clock,
        console,
    };
    match run_retries(&mut rescue, &mut outside) {
        Ok(()) => Ok(rescue.end_retrying()),
        Err(stop) => Err(rescue.stopped(stop)),
    }
}
