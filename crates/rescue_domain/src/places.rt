//! Whether each position of a domain has a place in the output.
ghost use Rattle.std.specs.Prelude.{◌≡◌, ◌<◌, ◌^◌, true, false};
ghost use Rattle.rescue_domain.specs.Domain.{whole_domain};
ghost use Rattle.rescue_domain.specs.Places.{AreAllPlaced, IsAnyBeyond};

use crate::domain::end_of;

/// The largest end of a place in the output.
const LIMIT: u64 = 1 << 63;

/// Whether the positions from `pos` on, `size` of them if that is given, and below `end`, all end in the output below
/// 2^63, where `pos` is there at `to`.
pub fn places_fit(pos: u64, size: Option<u64>, to: u64, end: u64) -> bool
    requires to { to < 2 ^ 63 }
    requires end { end < 2 ^ 63 }
    ensures fit { result ≡ true → AreAllPlaced (whole_domain pos size end) pos to }
    ensures beyond { result ≡ false → IsAnyBeyond (whole_domain pos size end) pos to }
{
    let last = end_of(pos, size, end);
    last <= pos || last - pos + to < LIMIT
}
