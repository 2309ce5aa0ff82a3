//! Saves the map of a comparison.
ghost use Rattle.std.specs.Prelude.{◌≡◌, OnOk, IfErr, false};
ghost use Rattle.mapfile_text.specs.Printed.{printed};
ghost use Rattle.crash_site.specs.SiteChanges.{Keeps};
ghost use Rattle.ddrescueverify_cli.specs.Asked.{shown_for};
ghost use Rattle.ddrescueverify_cli.specs.Steps.{SaveCause, SavesText};

use crate::ending::VerifyEnding;
use crate::open::RunMap;
use crash_site::site::Site;
use mapfile_save::draft::{SaveFault, Saved};
use mapfile_save::names::Names;
use mapfile_save::save::save;
use mapfile_text::heading::Heading;
use mapfile_text::state::{Current, MapState};
use rescue_verify::tally::Tally;

/// What the saved map shows: the first position, from which the pieces that differ are copied again, or what it showed
/// before if none differs.
fn state_after(loaded: MapState, tally: Tally) -> MapState
    ensures { result ≡ shown_for loaded tally.differing }
{
    if tally.differing == 0 {
        return loaded;
    }
    MapState {
        pos: 0,
        current: Current::Copying,
        pass: 1,
    }
}

/// Saves the map.
pub(crate) fn save_map<D: Site>(
    site: &mut D,
    names: &Names,
    heading: &Heading,
    loaded: MapState,
    tiles: &RunMap,
    tally: Tally,
) -> Result<(), VerifyEnding>
    ensures saves { SavesText names.now (printed heading.now (shown_for loaded tally.differing) tiles.now.statuses)
        result (D.state site.old) (D.state site.new) }
    ensures kept { OnOk result ((D.state site.new).faults ≡ (D.state site.old).faults) }
    ensures draft { OnOk result ((D.state site.new).is_drafting ≡ false) }
    ensures cause { IfErr result (λ e. SaveCause e (D.state site.old) (D.state site.new)) }
    ensures keeps { Keeps (D.state site.old) (D.state site.new) }
{
    match save(site, names, state_after(loaded, tally), tiles, heading) {
        Ok(Saved) => Ok(()),
        Err(SaveFault { call }) => Err(VerifyEnding::SiteFault { call }),
    }
}
