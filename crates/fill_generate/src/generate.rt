//! Generate mode: what the output holds of what wasn't tried is marked as finished.
ghost use Rattle.std.specs.Prelude.{◌≡◌, ◌-◌, true, false, length};
ghost use Rattle.crash_site.specs.SiteChanges.{Keeps as SiteKeeps};
ghost use Rattle.rescue_console.specs.ClockState.{Keeps as ClockKeeps};
ghost use Rattle.mapfile_text.specs.declared.heading.Program.TheVariants.{Ddrescue};
ghost use Rattle.sweep_rules.specs.Sweep.{generator, sweep_over};
ghost use Rattle.rescue_core.specs.Outside.{between, AreSame};
ghost use Rattle.fill_generate.specs.declared.mode.SweepMode.TheVariants.{Generate};
ghost use Rattle.fill_generate.specs.SweepState.{CanSweep, setting_for, setting_of};
ghost use Rattle.fill_generate.specs.Steps.{IsFound, PieceEnds, PiecesEnd, IsLookedUp};
ghost use Rattle.fill_generate.specs.Sweeping.{LookupTold, drafting_after, no_input, around};

use crate::job::Job;
use crate::mode::SweepMode;
use crate::sweeping::{Piece, Sweeping};
use block_list::tiles::Tiles;
use crash_site::site::Site;
use rescue_console::clock::Clock;
use rescue_console::console::Console;
use rescue_core::closing::Closed;
use rescue_core::outside::Outside;
use rescue_rules::stop::Stop;

/// Reads each piece of the positions that weren't tried from the output, from the lowest up, and marks as finished what
/// the output holds of it. The buffer is a cluster long; after the call it holds any bytes. The map is saved meanwhile
/// when it is due, and at the end. It stops if a call on the output or the mapfile fails. For lack of memory it stops
/// before a piece whose marks the map has no room for.
pub fn run_generate<D: Site, K: Clock, C: Console, T: Tiles>(
    job: Job<T>,
    buffer: &mut [u8],
    site: &mut D,
    clock: &mut K,
    console: &mut C,
) -> Closed
    requires room { length buffer.old ≡ job.settings.cluster }
    requires sweeps { CanSweep job.settings job.domain (T.statuses job.tiles) }
    requires program { job.heading.program ≡ Ddrescue }
    requires image { (D.state site.old).is_open ≡ true }
    requires no_draft { (D.state site.old).is_drafting ≡ false }
    ensures sweeps { let s = setting_for job.settings job.domain job.names job.heading.line in
        let w = generator s in
        LookupTold s w (sweep_over w (T.statuses job.tiles) job.loaded job.moment) job.heard result.heard result.end
        (around (D.state site.old) (D.state site.new) (K.state clock.old) (K.state clock.new) (C.state console.old)
        (C.state console.new)) }
    ensures site { SiteKeeps (D.state site.old) (D.state site.new) }
    ensures image { (D.state site.new).is_open ≡ true }
    ensures draft { (D.state site.new).is_drafting ≡ drafting_after result.end }
    ensures clock { ClockKeeps (K.state clock.old) (K.state clock.new) }
{
    let mut sweeping = Sweeping::begin(job, SweepMode::Generate);
    let ended = {
        // A sweep reads no input.
        let mut outside = Outside {
            source: &mut (),
            site: &mut *site,
            clock: &mut *clock,
            console: &mut *console,
        };
        generate_pieces(&mut sweeping, buffer, &mut outside)
    };
    sweeping.close(ended.err(), site, console)
}

/// Looks up piece by piece, until none is left.
fn generate_pieces<D: Site, K: Clock, C: Console, T: Tiles>(
    sweeping: &mut Sweeping<T>,
    buffer: &mut [u8],
    outside: &mut Outside<(), D, K, C>,
) -> Result<(), Stop>
    requires generates { sweeping.old.mode ≡ Generate }
    requires room { length buffer.old ≡ sweeping.old.settings.cluster }
    requires image { (D.state outside.old.site.now).is_open ≡ true }
    requires no_draft { (D.state outside.old.site.now).is_drafting ≡ false }
    ensures ends { PiecesEnd (IsLookedUp (setting_of sweeping.old) (D.state outside.old.site.now)) result
        (generator (setting_of sweeping.old)) sweeping.old sweeping.new
        (between no_input D.Site K.Clock C.Console outside.old outside.new) }
    ensures same { AreSame outside.old outside.new }
{
    'pieces: while let Some(piece) = sweeping.next_piece() {
        generate_piece(sweeping, piece, buffer, outside)?;
    }
    Ok(())
}

/// Looks up a piece, after taking memory for its marks.
fn generate_piece<D: Site, K: Clock, C: Console, T: Tiles>(
    sweeping: &mut Sweeping<T>,
    piece: Piece,
    buffer: &mut [u8],
    outside: &mut Outside<(), D, K, C>,
) -> Result<(), Stop>
    requires found { IsFound sweeping.old piece }
    requires generates { sweeping.old.mode ≡ Generate }
    requires room { length buffer.old ≡ sweeping.old.settings.cluster }
    requires image { (D.state outside.old.site.now).is_open ≡ true }
    requires no_draft { (D.state outside.old.site.now).is_drafting ≡ false }
    ensures ends { PieceEnds (IsLookedUp (setting_of sweeping.old) (D.state outside.old.site.now)) result
        (generator (setting_of sweeping.old)) piece sweeping.old sweeping.new
        (between no_input D.Site K.Clock C.Console outside.old outside.new) }
    ensures room { length buffer.new ≡ length buffer.old }
    ensures same { AreSame outside.old outside.new }
{
    sweeping.look_up(piece, buffer, outside.site)?;
    sweeping.end_piece(piece, 0, outside)
}
