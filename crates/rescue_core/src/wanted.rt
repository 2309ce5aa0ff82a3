//! What a phase asks for.
ghost use Rattle.std.specs.Prelude.{◌≡◌, ◌&&◌, ◌∷◌, [], slice_get};
ghost use Rattle.rescue_domain.specs.Live.{lives};
ghost use Rattle.rescue_rules.specs.declared.phase.Phase.TheVariants.{Trimming};
ghost use Rattle.rescue_rules.specs.Passes.{numbered};
ghost use Rattle.rescue_rules.specs.Machine.{has_taken};

use crate::request::status_of;
use block_list::tiles::Tiles;
use rescue_domain::live::Live;
use rescue_rules::phase::Phase;

/// Whether trimming asks for a position of what is left of a domain. In other phases it isn't looked up.
pub(crate) fn trims_on<T: Tiles>(live: Live<'_>, tiles: &T, phase: Phase, x: u64) -> bool
    ensures { phase ≡ Trimming → result ≡ (lives live.entry x
        && has_taken (numbered phase 1 ∷ []) (slice_get (T.statuses tiles.now) x)) }
{
    phase == Phase::Trimming && is_wanted(live, tiles, phase, x)
}

/// Whether a phase asks for a position of what is left of a domain.
fn is_wanted<T: Tiles>(live: Live<'_>, tiles: &T, phase: Phase, x: u64) -> bool
    ensures { result ≡ (lives live.entry x && has_taken (numbered phase 1 ∷ []) (slice_get (T.statuses tiles.now) x)) }
{
    x < tiles.end() && live.holds(x) && tiles.at(x) == status_of(phase)
}
