//! What is asked of maps in a domain: whether one is finished, and whether two agree.
ghost use Rattle.std.specs.Prelude.{◌≡◌, true, false};
ghost use Rattle.rescue_domain.specs.Parts.{covers};
ghost use Rattle.map_counts.specs.At.{IsWithinMap};
ghost use Rattle.map_algebra.specs.Compare.{IsDoneIn, IsOpenIn, AgreeIn, DifferIn, FinishAlikeIn, FinishUnlikeIn};

use block_list::tiles::Tiles;
use map_counts::pieces::{Nearby, PairNearby, is_finished, pair_at, piece_at};
use rescue_domain::domain::Domain;

/// Whether each position of a domain is finished.
pub fn is_done<T: Tiles>(tiles: &T, domain: &Domain) -> bool
    requires { IsWithinMap (covers domain.now) (T.statuses tiles.now) }
    ensures done { result ≡ true → IsDoneIn (covers domain.now) (T.statuses tiles.now) }
    ensures open { result ≡ false → IsOpenIn (covers domain.now) (T.statuses tiles.now) }
{
    let end = tiles.end();
    let mut near = Nearby::start();
    let mut at = 0;
    while at < end {
        let piece = piece_at(tiles, domain, &mut near, at, end);
        if piece.inside && !is_finished(piece.status) {
            return false;
        }
        at = piece.to;
    }
    true
}

/// Whether two maps agree at each position of a domain. A map is non-tried past its end.
pub fn same<T: Tiles, U: Tiles>(first: &T, second: &U, domain: &Domain) -> bool
    ensures agree { result ≡ true → AgreeIn (covers domain.now) (T.statuses first.now) (U.statuses second.now) }
    ensures differ { result ≡ false → DifferIn (covers domain.now) (T.statuses first.now) (U.statuses second.now) }
{
    let end = first.end().max(second.end());
    let mut near = PairNearby::start();
    let mut at = 0;
    while at < end {
        let pair = pair_at(first, second, domain, &mut near, at, end);
        if pair.inside && !pair.first.is(pair.second) {
            return false;
        }
        at = pair.to;
    }
    true
}

/// Whether the same positions of a domain are finished in both maps. No position past a map's end is finished.
pub fn same_finished<T: Tiles, U: Tiles>(first: &T, second: &U, domain: &Domain) -> bool
    ensures alike { result ≡ true → FinishAlikeIn (covers domain.now) (T.statuses first.now) (U.statuses second.now) }
    ensures unlike { result ≡ false
        → FinishUnlikeIn (covers domain.now) (T.statuses first.now) (U.statuses second.now) }
{
    let end = first.end().max(second.end());
    let mut near = PairNearby::start();
    let mut at = 0;
    while at < end {
        let pair = pair_at(first, second, domain, &mut near, at, end);
        if pair.inside && is_finished(pair.first) != is_finished(pair.second) {
            return false;
        }
        at = pair.to;
    }
    true
}
