//! A look at one piece.
ghost use Rattle.std.specs.Prelude.{◌≡◌, ◌-◌, ◌≤◌, true, length, IfOk, IfErr};
ghost use Rattle.faulty_source.specs.SourceChanges.{Stays as SourceStays};
ghost use Rattle.crash_site.specs.SiteChanges.{Stays as SiteStays};
ghost use Rattle.rescue_verify.specs.Across.{across};
ghost use Rattle.rescue_verify.specs.Looks.{Look};
ghost use Rattle.rescue_verify.specs.Looking.{CanLook, HaltsLooking, SeesPiece, seen_by};

use crate::halt::Halt;
use crate::piece::Piece;
use crash_site::site::Site;
use faulty_source::source::Source;

/// What a look at a piece found.
#[derive(Clone, Copy, Debug, PartialEq, Eq)]
pub enum LookResult {
    /// The input didn't give all of it.
    Unread,
    /// The image has what the input gave.
    Same,
    /// The image has something else, or ends before.
    Different,
}

/// Reads a piece of the input, and if that gave all of it, the image at the piece's place. Both buffers have room for
/// the piece.
pub(crate) fn look<S: Source, D: Site>(
    piece: Piece,
    given: &mut [u8],
    there: &mut [u8],
    source: &mut S,
    site: &mut D,
) -> Result<LookResult, Halt>
    requires piece { CanLook piece }
    requires given { piece.to - piece.from ≤ length given.old }
    requires there { piece.to - piece.from ≤ length there.old }
    requires input { (S.state source.old).is_open ≡ true }
    requires image { (D.state site.old).is_open ≡ true }
    ensures looks { IfOk result (λ seen. (l : Look) × (seen ≡ seen_by l)
        × SeesPiece piece.from (piece.to - piece.from) piece.place l (across (S.state source.old) (S.state source.new)
        (D.state site.old) (D.state site.new))) }
    ensures halts { IfErr result (λ halt. HaltsLooking halt piece.from (piece.to - piece.from) piece.place
        (across (S.state source.old) (S.state source.new) (D.state site.old) (D.state site.new))) }
    ensures source { SourceStays (S.state source.old) (S.state source.new) }
    ensures site { SiteStays (D.state site.old) (D.state site.new) }
{
    let size = (piece.to - piece.from) as usize;
    let given = &mut given[..size];
    let there = &mut there[..size];
    let got = match source.read_at(piece.from, given) {
        Ok(got) => got,
        Err(_) => return Err(Halt::SourceLost),
    };
    if got.count() < given.len() {
        return Ok(LookResult::Unread);
    }
    let count = match site.image_read(piece.place, there) {
        Ok(count) => count,
        Err(_) => return Err(Halt::ImageFault),
    };
    if &*given == &there[..count] {
        Ok(LookResult::Same)
    } else {
        Ok(LookResult::Different)
    }
}
