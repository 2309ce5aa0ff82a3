//! Removes a mapfile that is done.
ghost use Rattle.std.specs.Prelude.{◌≡◌, true};
ghost use Rattle.rescue_domain.specs.Parts.{covers};
ghost use Rattle.map_counts.specs.At.{IsWithinMap};
ghost use Rattle.ddrescuelog_words.specs.Command.{told_by};
ghost use Rattle.ddrescuelog_cli.specs.Maps.{Maps};
ghost use Rattle.ddrescuelog_cli.specs.Steps.{IsLoadedAs};
ghost use Rattle.ddrescuelog_cli.specs.After.{SiteLeft};
ghost use Rattle.ddrescuelog_cli.specs.Removing.{RemovesDone};

use crate::ending::LogEnding;
use crate::load::LoadedMaps;
use crash_site::site::{Site, SiteCall};
use ddrescuelog_words::command::Command;
use ddrescuelog_words::mode::LogMode;
use map_algebra::compare::is_done;

/// Removes the mapfile and settles that, if each position that is examined is finished.
pub(crate) fn remove_done<D: Site>(
    command: &Command,
    loaded: &LoadedMaps,
    site: &mut D,
) -> LogEnding
    requires mode { (told_by command.now).mode ≡ LogMode.Test true }
    requires within { IsWithinMap (covers loaded.now.domain) loaded.now.tiles.statuses }
    ensures work { (m : Maps) → IsLoadedAs (told_by command.now) m loaded.now
        → RemovesDone (told_by command.now) m result (D.state site.old) (D.state site.new) }
    ensures site { SiteLeft result (D.state site.old) (D.state site.new) }
{
    if !is_done(&loaded.tiles, &loaded.domain) {
        return LogEnding::NotDone;
    }
    let Ok(()) = site.map_remove(command.mapfile) else {
        return LogEnding::SiteFault {
            call: SiteCall::MapRemove,
        };
    };
    let Ok(()) = site.map_settle(command.mapfile) else {
        return LogEnding::SiteFault {
            call: SiteCall::MapSettle,
        };
    };
    LogEnding::Done
}
