//! What generate mode marks of a piece.
ghost use Rattle.std.specs.Prelude.{◌≡◌, ℕ, ◌+◌, ◌-◌, ◌*◌, ◌/◌, ◌<◌, ◌≤◌, ◌^◌, true, false, length};
ghost use Rattle.std.specs.List.{list_any};
ghost use Rattle.size_suffixes.specs.Sectors.{IsSector, largest_cluster};
ghost use Rattle.rescue_rules.specs.Setting.{Setting};
ghost use Rattle.sweep_rules.specs.Sweep.{is_generated};
ghost use Rattle.fill_generate.specs.Marking.{is_byte, finished_at, finished_between, piece_at};

use block_list::status::Status;
use block_list::tiles::Tiles;

/// How many blocks the marks of a piece up to a position may add to a map.
pub(crate) fn room_for(sector: u64, pos: u64, end: u64) -> usize
    requires sector { 0 < sector }
    requires later { pos ≤ end }
    requires few { end ≤ pos + largest_cluster }
    ensures { result ≡ 2 * (end / sector - pos / sector) + 4 }
{
    2 * (end / sector - pos / sector) as usize + 4
}

/// Marks as finished what an output holds of a piece that begins at a position: of each sector in which one of these
/// bytes isn't zero, as many positions as there are bytes. They are cut at multiples of the sector; what is
/// marked side by side is one mark.
pub(crate) fn mark_held<T: Tiles>(tiles: &mut T, sector: u64, pos: u64, bytes: &[u8])
    requires sector { IsSector sector }
    requires within { pos + length bytes.now ≤ length (T.statuses tiles.old) }
    requires short { pos + length bytes.now < 2 ^ 63 }
    requires spare { 2 * ((pos + length bytes.now) / sector - pos / sector) + 4 ≤ T.spare tiles.old }
    ensures { (s : Setting) (len : ℕ) → s.sector ≡ sector → length bytes.now ≤ len
        → T.statuses tiles.new ≡ finished_at (is_generated s (piece_at pos len bytes.now)) (T.statuses tiles.old) }
{
    let end = pos + bytes.len() as u64;
    let mut from = pos;
    let mut at = pos;
    while at < end {
        let to = end.min(at / sector * sector + sector);
        if !has_byte(&bytes[(at - pos) as usize..(to - pos) as usize]) {
            mark_range(tiles, from, at);
            from = to;
        }
        at = to;
    }
    mark_range(tiles, from, at);
}

/// Marks positions as finished, if there are any.
fn mark_range<T: Tiles>(tiles: &mut T, from: u64, to: u64)
    requires order { from ≤ to }
    requires within { to ≤ length (T.statuses tiles.old) }
    requires spare { 2 ≤ T.spare tiles.old }
    ensures marked { T.statuses tiles.new ≡ finished_between from to (T.statuses tiles.old) }
    ensures spare { T.spare tiles.old ≤ T.spare tiles.new + 2 }
{
    if from < to {
        tiles.set(from, to - from, Status::Finished);
    }
}

/// Whether one of some bytes is other than zero. Mostly the first one tells; else all are compared, many at a time.
fn has_byte(bytes: &[u8]) -> bool
    ensures { result ≡ list_any is_byte bytes.now }
{
    if matches!(bytes, [first, ..] if *first != 0) {
        return true;
    }
    let mut found = false;
    for byte in bytes {
        found |= *byte != 0;
    }
    found
}
