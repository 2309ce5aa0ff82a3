//! The copying of a rescue: its passes, each of which goes on until it has no request left.
ghost use Rattle.std.specs.Prelude.{◌≡◌, true, false, IfOk, OnOk};
ghost use Rattle.run_options.specs.Settings.{HasPlaces};
ghost use Rattle.rescue_domain.specs.Parts.{covers};
ghost use Rattle.rescue_rules.specs.Passes.{copying_passes};
ghost use Rattle.rescue_rules.specs.Machine.{has_request};
ghost use Rattle.rescue_rules.specs.Across.{across};
ghost use Rattle.rescue_core.specs.Outside.{between, IsOpen, AreSame};
ghost use Rattle.rescue_core.specs.RunState.{setting_in};
ghost use Rattle.rescue_phases.specs.Turns.{TurnsEnd, PhaseEnds};
ghost use Rattle.rescue_phases.specs.Copying.{MayCopy};

use block_list::tiles::Tiles;
use crash_site::site::Site;
use faulty_source::source::Source;
use rescue_console::clock::Clock;
use rescue_console::console::Console;
use rescue_core::outside::Outside;
use rescue_core::phases::{Copying, Rescue, Stopped, Trimming};
use rescue_rules::phase::{COPYING_PASSES, Phase};
use rescue_rules::stop::Stop;

/// Takes turns until the pass has no request left.
fn run_pass<S: Source, D: Site, K: Clock, C: Console, T: Tiles>(
    rescue: &mut Rescue<Copying, T>,
    outside: &mut Outside<S, D, K, C>,
) -> Result<(), Stop>
    requires copying { MayCopy rescue.old }
    requires places { HasPlaces rescue.old.settings (covers rescue.old.domain) }
    requires open { IsOpen S.Source D.Site outside.old }
    requires no_draft { (D.state outside.old.site.now).is_drafting ≡ false }
    ensures ends { TurnsEnd result rescue.old rescue.new (between S.Source D.Site K.Clock C.Console outside.old
        outside.new) }
    ensures same { AreSame outside.old outside.new }
    ensures copying { OnOk result (MayCopy rescue.new) }
    ensures pass { OnOk result (rescue.new.pass ≡ rescue.old.pass) }
    ensures spent { OnOk result (has_request (setting_in rescue.new) rescue.new.machine ≡ false) }
{
    'turns: while let Some(request) = rescue.next_request() {
        rescue.turn(request, outside)?;
    }
    Ok(())
}

/// Runs this pass of copying and the later ones.
fn run_passes<S: Source, D: Site, K: Clock, C: Console, T: Tiles>(
    rescue: &mut Rescue<Copying, T>,
    outside: &mut Outside<S, D, K, C>,
) -> Result<(), Stop>
    requires copying { MayCopy rescue.old }
    requires places { HasPlaces rescue.old.settings (covers rescue.old.domain) }
    requires open { IsOpen S.Source D.Site outside.old }
    requires no_draft { (D.state outside.old.site.now).is_drafting ≡ false }
    ensures ends { TurnsEnd result rescue.old rescue.new (between S.Source D.Site K.Clock C.Console outside.old
        outside.new) }
    ensures same { AreSame outside.old outside.new }
    ensures copying { OnOk result (MayCopy rescue.new) }
    ensures pass { OnOk result (rescue.new.pass ≡ copying_passes) }
    ensures spent { OnOk result (has_request (setting_in rescue.new) rescue.new.machine ≡ false) }
{
    'passes: loop {
        run_pass(rescue, outside)?;
        let pass = rescue.pass();
        if pass >= COPYING_PASSES {
            return Ok(());
        }
        rescue.begin_pass(Phase::Copying, pass + 1);
    }
}

/// Copies all that is non-tried, in this pass and the later ones, up to the end of the fifth. It stops when a turn
/// does: for lack of memory, at a lost read, at a limit, or at a call on the output or the mapfile that failed.
pub fn run_copying<S: Source, D: Site, K: Clock, C: Console, T: Tiles>(
    rescue: Rescue<Copying, T>,
    source: &mut S,
    site: &mut D,
    clock: &mut K,
    console: &mut C,
) -> Result<Rescue<Trimming, T>, Stopped<T>>
    requires copying { MayCopy rescue }
    requires places { HasPlaces rescue.settings (covers rescue.domain) }
    requires input { (S.state source.old).is_open ≡ true }
    requires image { (D.state site.old).is_open ≡ true }
    requires no_draft { (D.state site.old).is_drafting ≡ false }
    ensures ends { PhaseEnds rescue result (across (S.state source.old) (S.state source.new) (D.state site.old)
        (D.state site.new) (K.state clock.old) (K.state clock.new) (C.state console.old) (C.state console.new)) }
    ensures copying { IfOk result (λ r. MayCopy r) }
    ensures pass { IfOk result (λ r. r.pass ≡ copying_passes) }
    ensures spent { IfOk result (λ r. has_request (setting_in r) r.machine ≡ false) }
{
    let mut rescue = rescue;
    let mut outside = Outside {
        source,
        site,
        clock,
        console,
    };
    match run_passes(&mut rescue, &mut outside) {
        Ok(()) => Ok(rescue.end_copying()),
        Err(stop) => Err(rescue.stopped(stop)),
    }
}
