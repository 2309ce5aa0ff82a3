//! The marks that a finished transfer owes the map.
ghost use Rattle.std.specs.Prelude.{◌≡◌, ◌+◌, ◌≤◌, length};
ghost use Rattle.block_list.specs.Map.{marked};
ghost use Rattle.block_list.specs.declared.status.Status.TheVariants.{Finished};
ghost use Rattle.transfer_token.specs.Tokens.{size_of, IsFailedStatus};

use crate::token::{Landed, Missed};
use block_list::status::Status;
use block_list::tiles::Tiles;

/// Marks what landed as finished.
pub fn book<T: Tiles>(tiles: &mut T, landed: Landed)
    requires within { landed.to ≤ length (T.statuses tiles.old) }
    requires spare { 2 ≤ T.spare tiles.old }
    ensures marked { T.statuses tiles.new ≡ marked (T.statuses tiles.old) landed.from (size_of landed) Finished }
    ensures spare { T.spare tiles.old ≤ T.spare tiles.new + 2 }
{
    let range = landed.spend();
    tiles.set(range.from, range.to - range.from, Status::Finished);
}

/// Marks what was missed as failed.
pub fn book_missed<T: Tiles>(tiles: &mut T, missed: Missed, status: Status)
    requires failed { IsFailedStatus status }
    requires within { missed.to ≤ length (T.statuses tiles.old) }
    requires spare { 2 ≤ T.spare tiles.old }
    ensures marked { T.statuses tiles.new ≡ marked (T.statuses tiles.old) missed.from (size_of missed) status }
    ensures spare { T.spare tiles.old ≤ T.spare tiles.new + 2 }
{
    let range = missed.spend();
    tiles.set(range.from, range.to - range.from, status);
}
