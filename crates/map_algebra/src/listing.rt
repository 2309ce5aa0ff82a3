//! The numbers of the blocks in which positions of some types lie.
ghost use Rattle.std.specs.Prelude.{◌≡◌, ◌↔◌, ℕ, ◌+◌, ◌<◌, ◌≤◌, ◌^◌, ◌&&◌, true, IfSome, IfNone};
ghost use Rattle.block_list.specs.Places.{IsFirst};
ghost use Rattle.rescue_domain.specs.Domain.{IsIn};
ghost use Rattle.rescue_domain.specs.Parts.{covers};
ghost use Rattle.block_list.specs.Types.{has_type};
ghost use Rattle.rescue_domain.specs.Places.{AreAllPlaced, place_from};
ghost use Rattle.map_counts.specs.At.{IsWithinMap};
ghost use Rattle.map_algebra.specs.Blocks.{block_of};
ghost use Rattle.map_algebra.specs.Listing.{IsListed, is_typed, wanted_of};

use crate::shape::Shape;
use block_list::tiles::Tiles;
use block_list::types::TypeSet;
use map_counts::pieces::{DomainPiece, Nearby, piece_at};
use rescue_domain::domain::Domain;
use std::marker::Model;

/// The numbers of the blocks in which wanted positions lie, one after another.
#[derive(Drop)]
pub struct Listing {
    types: TypeSet,
    shape: Shape,
    /// The least number that may come.
    least: u64,
    near: Nearby,
}

impl Model for Listing {
    ghost use Rattle.std.specs.Prelude.{◌<◌};
    ghost use Rattle.map_algebra.specs.Listing.{ListingState};

    ghost Value = { ListingState };

    ghost view = { λ l. record { types = l.types; shape = l.shape; least = l.least } };

    ghost invariant = { λ l. 0 < l.shape.size };
}

impl Listing {
    /// The numbers of the blocks that a position of these types lies in. Blocks have `size` bytes in the output, where
    /// the position `ipos` is at the place `opos`.
    pub fn begin(types: TypeSet, ipos: u64, opos: u64, size: u64) -> Listing
        requires { 0 < size }
        ensures { result ≡ record {
          types = types;
          shape = record { ipos = ipos; opos = opos; size = size };
          least = 0;
        } }
    {
        Listing {
            types,
            shape: Shape { ipos, opos, size },
            least: 0,
            near: Nearby::start(),
        }
    }

    /// The least number that is listed and didn't come yet. Over all calls on one map and one domain it takes time
    /// linear in these and in the numbers that come, and for each number a search in both.
    pub fn next<T: Tiles>(&mut self, tiles: &T, domain: &Domain) -> Option<u64>
        requires within { IsWithinMap (covers domain.now) (T.statuses tiles.now) }
        requires from { (x : ℕ) → covers domain.now x ≡ true → self.old.shape.ipos ≤ x }
        requires placed { AreAllPlaced (covers domain.now) self.old.shape.ipos self.old.shape.opos }
        ensures least { IfSome result (λ k. IsFirst
            (IsListed (wanted_of self.old (covers domain.now) (T.statuses tiles.now))) self.old.least k) }
        ensures none { IfNone result ((k : ℕ) → self.old.least ≤ k
            → IsListed (wanted_of self.old (covers domain.now) (T.statuses tiles.now)) k → ⊥) }
        ensures after { IfSome result (λ k. self.new ≡ record self.old { least = k + 1 }) }
        ensures ended { IfNone result (self.new ≡ self.old) }
    {
        let from = first_of(self.least, self.shape);
        let end = tiles.end();
        let found = first_wanted(tiles, domain, self.types, &mut self.near, from, end)?;
        let number = (found - self.shape.ipos + self.shape.opos) / self.shape.size;
        self.least = number + 1;
        Some(number)
    }
}

/// The first position that can lie in the block with a number or in a later one.
fn first_of(number: u64, shape: Shape) -> u64
    requires { 0 < shape.size }
    ensures { (x : ℕ) → x < 2 ^ 63 → shape.ipos ≤ x → place_from shape.ipos shape.opos x < 2 ^ 63
        → (number ≤ block_of shape x) ↔ (result ≤ x) }
{
    number
        .saturating_mul(shape.size)
        .saturating_sub(shape.opos)
        .saturating_add(shape.ipos)
}

/// Whether the positions of a piece are in the domain and have one of some types.
fn is_typed(piece: &DomainPiece, types: TypeSet) -> bool
    ensures { result ≡ (piece.now.inside && has_type types piece.now.status) }
{
    piece.inside && types.has(piece.status)
}

/// The first position of a domain, at or past one and below another, that has one of some types.
fn first_wanted<T: Tiles>(
    tiles: &T,
    domain: &Domain,
    types: TypeSet,
    near: &mut Nearby,
    from: u64,
    end: u64,
) -> Option<u64>
    ensures first { IfSome result (IsFirst (IsIn (is_typed types (covers domain.now) (T.statuses tiles.now))) from) }
    ensures within { IfSome result (λ x. x < end) }
    ensures none { IfNone result ((x : ℕ) → from ≤ x → x < end
        → IsIn (is_typed types (covers domain.now) (T.statuses tiles.now)) x → ⊥) }
{
    let mut at = from;
    while at < end {
        let piece = piece_at(tiles, domain, near, at, end);
        if is_typed(&piece, types) {
            return Some(at);
        }
        at = piece.to;
    }
    None
}
