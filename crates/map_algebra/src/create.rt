//! The map of listed blocks.
ghost use Rattle.std.specs.Prelude.{◌≡◌, ◌<◌, ◌^◌, All, IfOk, length};
ghost use Rattle.std.specs.List.Sorted.{IsNonDecreasing, IsPermutation};
ghost use Rattle.rescue_domain.specs.Parts.{covers};
ghost use Rattle.map_counts.specs.At.{map_by, status_at};
ghost use Rattle.map_algebra.specs.Blocks.{IsShape};
ghost use Rattle.map_algebra.specs.Create.{at_mark, created_map, mark_of};
ghost use Rattle.map_algebra.specs.Numbers.{IsInRange};

use crate::blocks::positions_of;
use crate::shape::Shape;
use block_list::status::Status;
use block_list::tiles::{NoMemory, Tiles};
use map_counts::pieces::{DomainPiece, Nearby, piece_at, put};
use plain_blocks::plain_tiles::PlainTiles;
use rescue_domain::domain::Domain;
use std::alloc::Global;

/// All the given numbers in ascending order.
fn sorted(alloc: Global, numbers: &[u64]) -> Result<Vec<u64>, NoMemory>
    ensures order { IfOk result (λ sorted. IsNonDecreasing sorted.items) }
    ensures same { IfOk result (λ sorted. IsPermutation numbers.now sorted.items) }
{
    let mut sorted = Vec::from_slice(alloc, numbers)?;
    sorted.sort_unstable();
    Ok(sorted)
}

/// The marks of the positions below an end, by the numbers of the blocks, which ascend.
fn marks(alloc: Global, ascending: &[u64], shape: Shape, end: u64) -> Result<PlainTiles, NoMemory>
    requires shape { IsShape shape }
    requires limits { All (IsInRange shape) ascending.now }
    requires order { IsNonDecreasing ascending.now }
    requires end { end < 2 ^ 63 }
    ensures { IfOk result (λ marks. marks.statuses ≡ map_by (mark_of shape ascending.now) end) }
{
    let mut marks = PlainTiles::new(alloc);
    // Blocks that join take less, so the marks may fit even if there isn't memory for as many.
    let _ = marks.reserve(ascending.len().saturating_mul(2).saturating_add(1));
    for number in ascending {
        let positions = positions_of(*number, shape);
        let from = positions.from.min(end);
        put(&mut marks, from, Status::NonTried)?;
        let to = positions.to.min(end);
        put(&mut marks, to, Status::Finished)?;
    }
    put(&mut marks, end, Status::NonTried)?;
    Ok(marks)
}

/// The marks of the positions below an end, by the numbers of the blocks in any order. Numbers that ascend are read
/// where they are.
fn marks_of(alloc: Global, numbers: &[u64], shape: Shape, end: u64) -> Result<PlainTiles, NoMemory>
    requires shape { IsShape shape }
    requires limits { All (IsInRange shape) numbers.now }
    requires end { end < 2 ^ 63 }
    ensures { IfOk result (λ marks. marks.statuses ≡ map_by (mark_of shape numbers.now) end) }
{
    if numbers.is_sorted() {
        return marks(alloc, numbers, shape, end);
    }
    let sorted = sorted(alloc, numbers)?;
    marks(alloc, &sorted, shape, end)
}

/// What a created map has at a piece of the marks.
fn created_at(piece: &DomainPiece, listed: Status, rest: Status) -> Status
    ensures { result ≡ at_mark piece.now.status piece.now.inside listed rest }
{
    if !piece.inside {
        return Status::NonTried;
    }
    match piece.status {
        Status::Finished => listed,
        _ => rest,
    }
}

/// The map that marks stand for.
fn created(
    alloc: Global,
    marks: &PlainTiles,
    domain: &Domain,
    listed: Status,
    rest: Status,
) -> Result<PlainTiles, NoMemory>
    ensures { IfOk result (λ map. map.statuses
        ≡ map_by (λ x. at_mark (status_at marks.now.statuses x) (covers domain.now x) listed rest)
        (length marks.now.statuses)) }
{
    let end = marks.end();
    let mut map = PlainTiles::new(alloc);
    // A domain of one interval leaves about as many blocks as there are marks; others make room as they go.
    let _ = map.reserve(marks.blocks());
    let mut near = Nearby::start();
    let mut at = 0;
    while at < end {
        let piece = piece_at(marks, domain, &mut near, at, end);
        let status = created_at(&piece, listed, rest);
        put(&mut map, piece.to, status)?;
        at = piece.to;
    }
    Ok(map)
}

/// The map of the positions below an end: those of a domain have one status if they lie in a listed block, and another
/// elsewhere, and the others are non-tried. Numbers may come in any order and more than once; it takes time n log n in
/// them, and linear time if they ascend. `NoMemory` says that the memory for the map, or for the numbers once more if
/// they don't ascend, wasn't there.
pub fn create(
    alloc: Global,
    numbers: &[u64],
    shape: Shape,
    domain: &Domain,
    end: u64,
    listed: Status,
    rest: Status,
) -> Result<PlainTiles, NoMemory>
    requires shape { IsShape shape }
    requires limits { All (IsInRange shape) numbers.now }
    requires end { end < 2 ^ 63 }
    ensures { IfOk result (λ map. map.statuses
        ≡ created_map shape numbers.now (covers domain.now) listed rest end) }
{
    let marks = marks_of(alloc, numbers, shape, end)?;
    created(alloc, &marks, domain, listed, rest)
}
