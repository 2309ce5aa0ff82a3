//! The calls of a save, in their order.
ghost use Rattle.std.specs.Prelude.{◌≡◌, false, IsTrue, OnOk};
ghost use Rattle.mapfile_text.specs.Printed.{printed};
ghost use Rattle.mapfile_save.specs.Saving.{save_calls, Saves};
ghost use Rattle.mapfile_save.specs.MapNames.{HasOwnDraft};
ghost use Rattle.mapfile_save.specs.SaveStops.{StopsInSave, IsSaved, disk_of};

use crate::draft::{Draft, SaveFault, Saved};
use crate::names::Names;
use block_list::tiles::Tiles;
use crash_site::site::Site;
use mapfile_text::heading::Heading;
use mapfile_text::state::MapState;

/// Saves a map: the image is synced; the printed map is written to the draft and synced; the draft takes the mapfile's
/// place, and that is settled. It takes no memory. A stop within it leaves the old mapfile or the new one.
pub fn save<D: Site, T: Tiles>(
    site: &mut D,
    names: &Names,
    state: MapState,
    tiles: &T,
    heading: &Heading,
) -> Result<Saved, SaveFault>
    ensures call { Saves (save_calls names.now (printed heading.now state (T.statuses tiles.now))) false result
        (D.state site.old) (D.state site.new) }
    ensures stops { IsTrue (D.state site.old).tells → HasOwnDraft names.now → StopsInSave names.now
        (printed heading.now state (T.statuses tiles.now)) (D.state site.old) (D.state site.new) }
    ensures saved { OnOk result (IsTrue (D.state site.old).tells → HasOwnDraft names.now → IsSaved names.now
        (printed heading.now state (T.statuses tiles.now)) (disk_of (D.state site.old)) (disk_of (D.state site.new))) }
{
    make_calls(site, names, state, tiles, heading)
}

/// Makes the calls of a save.
fn make_calls<D: Site, T: Tiles>(
    site: &mut D,
    names: &Names,
    state: MapState,
    tiles: &T,
    heading: &Heading,
) -> Result<Saved, SaveFault>
    ensures { Saves (save_calls names.now (printed heading.now state (T.statuses tiles.now))) false result
        (D.state site.old) (D.state site.new) }
{
    let begun = Draft::begin(site, names)?;
    let filled = begun.fill(site, state, tiles, heading)?;
    let firm = filled.firm(site)?;
    firm.publish(site, names)
}
