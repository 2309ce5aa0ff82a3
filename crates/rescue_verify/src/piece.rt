//! Which pieces are compared, and where they are in the image.
ghost use Rattle.std.specs.Prelude.{◌≡◌, ◌<◌, ◌≤◌, ◌^◌, IfSome, IfNone};
ghost use Rattle.block_list.specs.Places.{IsRangeUp};
ghost use Rattle.rescue_domain.specs.Domain.{IsIn};
ghost use Rattle.rescue_domain.specs.Parts.{covers};
ghost use Rattle.rescue_domain.specs.Places.{place_from};
ghost use Rattle.rescue_verify.specs.Comparing.{IsNext, IsSound, comparison_by};
ghost use Rattle.rescue_verify.specs.Pieces.{NoneFrom};

use rescue_domain::domain::Domain;

/// What is compared, in sectors of this size in bytes, and where it is in the image: the position `from` at `to`.
#[derive(Clone, Copy)]
pub struct Comparison<'a> {
    pub compared: &'a Domain,
    pub sector: u64,
    pub from: u64,
    pub to: u64,
}

/// A piece: the positions that are compared with one look, and where they are in the image.
#[derive(Clone, Copy)]
pub(crate) struct Piece {
    pub from: u64,
    pub to: u64,
    /// The place of `from` in the image.
    pub place: u64,
    /// Where the run of positions that are to be compared ends in which it lies.
    pub run_end: u64,
}

impl Comparison<'_> {
    /// The first piece at or after a position.
    pub(crate) fn next_piece(self, from: u64) -> Option<Piece>
        requires { IsSound (comparison_by self) }
        ensures next { IfSome result (λ p. IsNext (comparison_by self.entry) from p) }
        ensures run { IfSome result (λ p. IsRangeUp (IsIn (covers self.entry.compared.now)) p.from p.run_end) }
        ensures none { IfNone result (NoneFrom (covers self.entry.compared.now) from) }
    {
        let range = self.compared.next_in(from)?;
        let boundary = (range.from + self.sector) / self.sector * self.sector;
        Some(Piece {
            from: range.from,
            to: range.to.min(boundary),
            place: self.place_of(range.from),
            run_end: range.to,
        })
    }

    /// Where a position is in the image.
    fn place_of(self, x: u64) -> u64
        requires from { self.from ≤ x }
        requires short { place_from self.from self.to x < 2 ^ 63 }
        ensures { result ≡ place_from self.entry.from self.entry.to x }
    {
        x - self.from + self.to
    }
}
