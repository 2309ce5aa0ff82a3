//! The saves of a run, which makes none without a mapfile.
ghost use Rattle.std.specs.Prelude.{◌≡◌, false, [], ◌∷◌, is_some, if◌then◌else◌};
ghost use Rattle.mapfile_text.specs.declared.heading.Program.TheVariants.{Ddrescue};
ghost use Rattle.crash_site.specs.Calls.{image_sync};
ghost use Rattle.mapfile_save.specs.Saving.{save_calls, Saves};
ghost use Rattle.mapfile_save.specs.MapNames.{names_in};
ghost use Rattle.rescue_rules.specs.Snapshots.{text_of};

use block_list::tiles::Tiles;
use crash_site::site::{Site, SiteCall};
use mapfile_save::draft::SaveFault;
use mapfile_save::names::Names;
use mapfile_save::save::save;
use mapfile_text::heading::Heading;
use rescue_rules::tally::Tally;

/// Saves a map, with what a run has come to, if there is a mapfile.
pub(crate) fn save_now<D: Site, T: Tiles>(
    site: &mut D,
    names: &Option<Names>,
    heading: &mut Heading,
    tiles: &T,
    tally: Tally,
) -> Result<(), SaveFault>
    requires program { heading.old.program ≡ Ddrescue }
    requires no_draft { (D.state site.old).is_drafting ≡ false }
    ensures call { Saves (if is_some names.now then save_calls (names_in names.now) (text_of heading.old.line (record {
      map = T.statuses tiles.now;
      shown = tally.shown;
      began = tally.began;
      now = tally.now;
    })) else []) false result (D.state site.old) (D.state site.new) }
    ensures line { heading.new.line ≡ heading.old.line }
    ensures program { heading.new.program ≡ Ddrescue }
{
    let Some(names) = names else {
        return Ok(());
    };
    heading.set_times(tally.began / 1000, tally.now / 1000);
    save(site, names, tally.shown, tiles, heading)?;
    Ok(())
}

/// Saves a map at a run's end, with what the run has come to, if there is a mapfile, and otherwise syncs the image.
pub(crate) fn save_or_sync<D: Site, T: Tiles>(
    site: &mut D,
    names: &Option<Names>,
    heading: &mut Heading,
    tiles: &T,
    tally: Tally,
) -> Result<(), SaveFault>
    requires program { heading.old.program ≡ Ddrescue }
    requires no_draft { (D.state site.old).is_drafting ≡ false }
    ensures { Saves (if is_some names.now then save_calls (names_in names.now) (text_of heading.old.line (record {
      map = T.statuses tiles.now;
      shown = tally.shown;
      began = tally.began;
      now = tally.now;
    })) else image_sync ∷ []) false result (D.state site.old) (D.state site.new) }
{
    match names {
        Some(_) => save_now(site, names, heading, tiles, tally),
        None => site.image_sync().map_err(|_| SaveFault {
            call: SiteCall::ImageSync,
        }),
    }
}
