//! Where the positions of blocks begin and end.
ghost use Rattle.std.specs.Prelude.{◌≡◌, ◌<◌, ◌≤◌, ◌^◌, [], All, Contains, MatchOption};
ghost use Rattle.map_algebra.specs.Blocks.{IsEndOfBlocks, IsShape, begin_of, end_of};
ghost use Rattle.map_algebra.specs.Numbers.{IsInRange};

use crate::shape::Shape;
use block_list::block::Range;

/// The positions of a block: none if all its places are before that of the first position.
pub(crate) fn positions_of(number: u64, shape: Shape) -> Range
    requires shape { IsShape shape }
    requires limit { IsInRange shape number }
    ensures from { result.from ≡ begin_of shape number }
    ensures to { result.to ≡ end_of shape number }
{
    let place = number * shape.size;
    Range {
        from: shape.ipos + place.saturating_sub(shape.opos),
        to: shape.ipos + (place + shape.size).saturating_sub(shape.opos),
    }
}

/// The greatest of some numbers.
fn greatest(numbers: &[u64]) -> Option<u64>
    ensures { MatchOption result (numbers.now ≡ [])
        (λ greatest. Contains numbers.now greatest × All (λ number. number ≤ greatest) numbers.now) }
{
    numbers.iter().copied().max()
}

/// The end past all positions in these blocks, 0 if there are none.
pub fn end_of_blocks(numbers: &[u64], shape: Shape) -> u64
    requires shape { IsShape shape }
    requires limits { All (IsInRange shape) numbers.now }
    ensures end { IsEndOfBlocks shape numbers.now result }
    ensures short { result < 2 ^ 63 }
{
    let Some(greatest) = greatest(numbers) else {
        return 0;
    };
    let positions = positions_of(greatest, shape);
    if positions.from < positions.to {
        positions.to
    } else {
        0
    }
}
