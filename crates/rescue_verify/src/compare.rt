//! The comparison: all pieces, in order.
ghost use Rattle.std.specs.Prelude.{◌≡◌, ◌-◌, ◌^◌, ◌<◌, ℕ, true, length, IfOk, OnOk, IfErr, vec_len};
ghost use Rattle.faulty_source.specs.SourceChanges.{Stays as SourceStays};
ghost use Rattle.crash_site.specs.SiteChanges.{Stays as SiteStays};
ghost use Rattle.rescue_domain.specs.Domain.{IsIn};
ghost use Rattle.rescue_domain.specs.Parts.{covers};
ghost use Rattle.rescue_verify.specs.Across.{across};
ghost use Rattle.rescue_verify.specs.Comparing.{AreAsLong, CanTake, Compares, HaveRoom, IsSound, IsTallyUpTo, LossesRise, TakesPiece, comparison_by};
ghost use Rattle.rescue_verify.specs.Looking.{HaltsLooking};

use crate::halt::Halt;
use crate::look::{LookResult, look};
use crate::piece::{Comparison, Piece};
use crate::tally::Tally;
use block_list::status::Status;
use block_list::tiles::{NoMemory, Tiles};
use crash_site::site::Site;
use faulty_source::source::Source;
use std::alloc::Global;

/// Room for the bytes of a piece: those that the input gives, and those that are there in the image.
#[derive(Drop)]
struct Buffers {
    given: Vec<u8>,
    there: Vec<u8>,
}

impl Buffers {
    /// Room for pieces of up to `size` bytes.
    fn new(alloc: Global, size: usize) -> Result<Buffers, NoMemory>
        ensures given { IfOk result (λ b. vec_len b.given ≡ size) }
        ensures there { IfOk result (λ b. vec_len b.there ≡ size) }
    {
        let given = vec![in alloc; 0; size]?;
        let there = vec![in alloc; 0; size]?;
        Ok(Buffers { given, there })
    }
}

/// Looks at a piece, marks it in the map if it differs, and counts it. Room for the mark is asked for first, so that no
/// read is lost for lack of it. The input is told how far reads go on from there.
fn compare_piece<S: Source, D: Site, T: Tiles>(
    piece: Piece,
    tally: &mut Tally,
    tiles: &mut T,
    buffers: &mut Buffers,
    source: &mut S,
    site: &mut D,
) -> Result<(), Halt>
    requires piece { CanTake piece (T.statuses tiles.old) }
    requires run { piece.from < piece.run_end }
    requires run_place { piece.run_end < 2 ^ 63 }
    requires tally { IsTallyUpTo piece.from tally.old }
    requires room { HaveRoom (piece.to - piece.from) buffers.old }
    requires input { (S.state source.old).is_open ≡ true }
    requires image { (D.state site.old).is_open ≡ true }
    ensures takes { OnOk result (TakesPiece piece tally.old tally.new (T.statuses tiles.old) (T.statuses tiles.new)
        (across (S.state source.old) (S.state source.new) (D.state site.old) (D.state site.new))) }
    ensures halts { IfErr result (λ halt. HaltsLooking halt piece.from (piece.to - piece.from) piece.place
        (across (S.state source.old) (S.state source.new) (D.state site.old) (D.state site.new))) }
    ensures room { AreAsLong buffers.old buffers.new }
    ensures source { SourceStays (S.state source.old) (S.state source.new) }
    ensures site { SiteStays (D.state site.old) (D.state site.new) }
{
    tiles.reserve(2)?;
    let size = piece.to - piece.from;
    source.expect(piece.from, piece.run_end);
    match look(piece, &mut buffers.given, &mut buffers.there, source, site)? {
        LookResult::Unread => tally.unread += size,
        LookResult::Same => tally.compared += size,
        LookResult::Different => {
            tally.compared += size;
            tally.differing += size;
            tiles.set(piece.from, size, Status::NonTried);
        }
    }
    Ok(())
}

/// Compares all pieces with the input, in order, and marks those that differ `?` in the map. It stops if memory isn't
/// there, at a read of the input that is lost, or at one of the image that fails. It writes nothing to the image.
pub fn compare<S: Source, D: Site, T: Tiles>(
    alloc: Global,
    comparison: Comparison<'_>,
    tiles: &mut T,
    source: &mut S,
    site: &mut D,
) -> Result<Tally, Halt>
    requires sound { IsSound (comparison_by comparison) }
    requires within { (x : ℕ) → IsIn (covers comparison.compared.now) x → x < length (T.statuses tiles.old) }
    requires input { (S.state source.old).is_open ≡ true }
    requires image { (D.state site.old).is_open ≡ true }
    ensures compares { Compares (comparison_by comparison.entry) (T.statuses tiles.old) (T.statuses tiles.new) result
        (across (S.state source.old) (S.state source.new) (D.state site.old) (D.state site.new)) }
    ensures counts { LossesRise result (S.state source.old) (S.state source.new) (D.state site.old) (D.state site.new) }
    ensures source { SourceStays (S.state source.old) (S.state source.new) }
    ensures site { SiteStays (D.state site.old) (D.state site.new) }
{
    let mut buffers = Buffers::new(alloc, comparison.sector as usize)?;
    let mut tally = Tally {
        compared: 0,
        differing: 0,
        unread: 0,
    };
    let mut from = 0;
    'pieces: while let Some(piece) = comparison.next_piece(from) {
        compare_piece(piece, &mut tally, tiles, &mut buffers, source, site)?;
        from = piece.to;
    }
    Ok(tally)
}
