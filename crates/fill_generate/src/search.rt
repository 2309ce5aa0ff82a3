//! Where the positions lie that a sweep takes.
ghost use Rattle.std.specs.Prelude.{◌≡◌, ℕ, ◌<◌, ◌≤◌, ◌^◌, false, length, IfSome, IfNone};
ghost use Rattle.block_list.specs.Places.{IsFirst};
ghost use Rattle.rescue_domain.specs.Parts.{covers};
ghost use Rattle.fill_generate.specs.Modes.{is_taken, IsTakenIn};

use crate::mode::SweepMode;
use block_list::near::Near;
use block_list::tiles::Tiles;
use rescue_domain::domain::Domain;

/// Positions of a map up to one, all of which a sweep takes, or none.
#[derive(Clone, Copy, Debug, PartialEq, Eq)]
struct Alike {
    pub taken: bool,
    pub to: u64,
}

/// Whether a sweep takes a position, and up to where those after it are like it. `part` and `near` say where to look
/// first, in the domain and in the map.
fn alike_from<T: Tiles>(
    mode: SweepMode,
    domain: &Domain,
    tiles: &T,
    part: &mut usize,
    near: &mut Near,
    x: u64,
) -> Alike
    requires { x < length (T.statuses tiles.now) }
    ensures later { x < result.to }
    ensures within { result.to ≤ length (T.statuses tiles.now) }
    ensures alike { (y : ℕ) → x ≤ y → y < result.to
        → is_taken mode (covers domain.now) (T.statuses tiles.now) y ≡ result.taken }
{
    let stretch = domain.stretch_at(part, x, tiles.end());
    if !stretch.inside {
        return Alike {
            taken: false,
            to: stretch.to,
        };
    }
    let block = tiles.stretch_near(near, x);
    Alike {
        taken: mode.takes(block.status),
        to: stretch.to.min(block.pos + block.size),
    }
}

/// The first position at or after one that a sweep takes.
pub(crate) fn first_taken<T: Tiles>(
    mode: SweepMode,
    domain: &Domain,
    tiles: &T,
    from: u64,
) -> Option<u64>
    ensures first { IfSome result (λ x. IsFirst (IsTakenIn mode (covers domain.now) (T.statuses tiles.now)) from x) }
    ensures within { IfSome result (λ x. x < length (T.statuses tiles.now)) }
    ensures short { IfSome result (λ x. x < 2 ^ 63) }
    ensures none { IfNone result ((x : ℕ) → from ≤ x
        → IsTakenIn mode (covers domain.now) (T.statuses tiles.now) x → ⊥) }
{
    let mut part = 0;
    let mut near = Near::start();
    let mut at = from;
    while at < tiles.end() {
        let here = alike_from(mode, domain, tiles, &mut part, &mut near, at);
        if here.taken {
            return Some(at);
        }
        at = here.to;
    }
    None
}

/// Up to where, below a limit, all positions from one on are taken.
pub(crate) fn taken_to<T: Tiles>(
    mode: SweepMode,
    domain: &Domain,
    tiles: &T,
    from: u64,
    limit: u64,
) -> u64
    requires { from ≤ limit }
    ensures least { from ≤ result }
    ensures most { result ≤ limit }
    ensures taken { (y : ℕ) → from ≤ y → y < result
        → IsTakenIn mode (covers domain.now) (T.statuses tiles.now) y }
    ensures stops { result < limit → IsTakenIn mode (covers domain.now) (T.statuses tiles.now) result → ⊥ }
{
    let mut part = 0;
    let mut near = Near::start();
    let mut at = from;
    while at < limit && at < tiles.end() {
        let here = alike_from(mode, domain, tiles, &mut part, &mut near, at);
        if !here.taken {
            return at;
        }
        at = here.to;
    }
    at.min(limit)
}
