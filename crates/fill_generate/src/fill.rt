//! Fill mode: a pattern is written to the output at the positions that have one of some statuses.
ghost use Rattle.std.specs.Prelude.{◌≡◌, ◌+◌, ⊤, true, false, length, OnOk};
ghost use Rattle.crash_site.specs.SiteChanges.{Keeps as SiteKeeps};
ghost use Rattle.rescue_console.specs.ClockState.{Keeps as ClockKeeps};
ghost use Rattle.mapfile_text.specs.declared.heading.Program.TheVariants.{Ddrescue};
ghost use Rattle.sweep_rules.specs.Sweep.{filler, sweep_over};
ghost use Rattle.fill_generate.specs.declared.mode.SweepMode.TheVariants.{Fill};
ghost use Rattle.fill_generate.specs.SweepState.{CanSweep, setting_for, setting_of};
ghost use Rattle.rescue_rules.specs.Across.{ObjectsStay};
ghost use Rattle.rescue_core.specs.Outside.{between, AreSame};
ghost use Rattle.fill_generate.specs.Steps.{IsFound, PieceEnds, PiecesEnd, gone_to};
ghost use Rattle.fill_generate.specs.Sweeping.{SweepTold, drafting_after, no_input, around};

use crate::job::Job;
use crate::mode::SweepMode;
use crate::sweeping::{Piece, Sweeping};
use block_list::tiles::Tiles;
use block_list::types::TypeSet;
use crash_site::site::{Site, SiteCall};
use rescue_console::clock::Clock;
use rescue_console::console::Console;
use rescue_core::closing::Closed;
use rescue_core::outside::Outside;
use rescue_rules::stop::Stop;

/// Writes the buffer's front over each piece of the positions with these statuses, from the lowest up, and leaves the
/// map. The buffer is a cluster long. The map is saved meanwhile when it is due, and at the end. It takes no memory. It
/// stops when a call on the output or the mapfile fails, and after a failed write or a failed save it makes no further
/// call.
pub fn run_fill<D: Site, K: Clock, C: Console, T: Tiles>(
    job: Job<T>,
    types: TypeSet,
    buffer: &[u8],
    site: &mut D,
    clock: &mut K,
    console: &mut C,
) -> Closed
    requires room { length buffer.now ≡ job.settings.cluster }
    requires sweeps { CanSweep job.settings job.domain (T.statuses job.tiles) }
    requires program { job.heading.program ≡ Ddrescue }
    requires image { (D.state site.old).is_open ≡ true }
    requires no_draft { (D.state site.old).is_drafting ≡ false }
    ensures sweeps { let s = setting_for job.settings job.domain job.names job.heading.line in
        let w = filler s types buffer.now in
        SweepTold s w (sweep_over w (T.statuses job.tiles) job.loaded job.moment) job.heard result.heard result.end
        (around (D.state site.old) (D.state site.new) (K.state clock.old) (K.state clock.new) (C.state console.old)
        (C.state console.new)) }
    ensures site { SiteKeeps (D.state site.old) (D.state site.new) }
    ensures image { (D.state site.new).is_open ≡ true }
    ensures draft { (D.state site.new).is_drafting ≡ drafting_after result.end }
    ensures clock { ClockKeeps (K.state clock.old) (K.state clock.new) }
{
    let mut sweeping = Sweeping::begin(job, SweepMode::Fill(types));
    let ended = {
        // A sweep reads no input.
        let mut outside = Outside {
            source: &mut (),
            site: &mut *site,
            clock: &mut *clock,
            console: &mut *console,
        };
        fill_pieces(&mut sweeping, buffer, &mut outside)
    };
    sweeping.close(ended.err(), site, console)
}

/// Fills piece by piece, until none is left.
fn fill_pieces<D: Site, K: Clock, C: Console, T: Tiles>(
    sweeping: &mut Sweeping<T>,
    buffer: &[u8],
    outside: &mut Outside<(), D, K, C>,
) -> Result<(), Stop>
    requires room { length buffer.now ≡ sweeping.old.settings.cluster }
    requires image { (D.state outside.old.site.now).is_open ≡ true }
    requires no_draft { (D.state outside.old.site.now).is_drafting ≡ false }
    ensures ends { (types : TypeSet) → sweeping.old.mode ≡ Fill types
        → PiecesEnd (λ e. ⊤) result (filler (setting_of sweeping.old) types buffer.now) sweeping.old sweeping.new
        (between no_input D.Site K.Clock C.Console outside.old outside.new) }
    ensures same { AreSame outside.old outside.new }
{
    'pieces: while let Some(piece) = sweeping.next_piece() {
        fill_piece(sweeping, piece, buffer, outside)?;
    }
    Ok(())
}

/// Fills a piece.
fn fill_piece<D: Site, K: Clock, C: Console, T: Tiles>(
    sweeping: &mut Sweeping<T>,
    piece: Piece,
    buffer: &[u8],
    outside: &mut Outside<(), D, K, C>,
) -> Result<(), Stop>
    requires found { IsFound sweeping.old piece }
    requires room { length buffer.now ≡ sweeping.old.settings.cluster }
    requires image { (D.state outside.old.site.now).is_open ≡ true }
    requires no_draft { (D.state outside.old.site.now).is_drafting ≡ false }
    ensures ends { (types : TypeSet) → sweeping.old.mode ≡ Fill types
        → PieceEnds (λ e. ⊤) result (filler (setting_of sweeping.old) types buffer.now) piece sweeping.old sweeping.new
        (between no_input D.Site K.Clock C.Console outside.old outside.new) }
    ensures stands { sweeping.new ≡ gone_to sweeping.old sweeping.new }
    ensures passed { OnOk result (sweeping.new.sweep.cursor ≡ piece.pos + piece.len) }
    ensures draft { OnOk result ((D.state outside.new.site.now).is_drafting ≡ false) }
    ensures objects { ObjectsStay (between no_input D.Site K.Clock C.Console outside.old outside.new) }
    ensures same { AreSame outside.old outside.new }
{
    let place = sweeping.place_of(piece);
    match outside.site.image_write(place, &buffer[..piece.len]) {
        Ok(()) => sweeping.end_piece(piece, piece.len as u64, outside),
        Err(_) => Err(Stop::Site(SiteCall::ImageWrite)),
    }
}
