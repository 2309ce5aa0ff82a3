//! Reads the maps that the words name.
ghost use Rattle.std.specs.Prelude.{◌≡◌, OnOk, IfOk, IfErr, option_map};
ghost use Rattle.crash_site.specs.SiteChanges.{Stays};
ghost use Rattle.mapfile_resume.specs.Named.{map_mode};
ghost use Rattle.ddrescueshow_cli.specs.Steps.{ReadCause, ReadsMap, ReadsNamed};

use crate::ending::{ShowEnding, Which};
use crash_site::site::Site;
use mapfile_reader::read::ReadMap;
use mapfile_resume::named::load_named;
use plain_blocks::plain_tiles::PlainTiles;
use std::alloc::Global;

/// Reads a map, which must be there; a loose one may have gaps.
pub(crate) fn read_map<D: Site>(
    alloc: Global,
    site: &mut D,
    which: Which,
    name: &str,
    loose: bool,
) -> Result<PlainTiles, ShowEnding>
    ensures told { ReadsMap which (map_mode loose) name.now result (D.state site.old) (D.state site.new) }
    ensures kept { OnOk result ((D.state site.new).faults ≡ (D.state site.old).faults) }
    ensures cause { IfErr result (λ e. ReadCause e (D.state site.old) (D.state site.new)) }
    ensures site { Stays (D.state site.old) (D.state site.new) }
{
    match load_named(alloc, site, name, loose) {
        Ok(ReadMap { tiles, .. }) => Ok(tiles),
        Err(fault) => Err(ShowEnding::refused(which, fault)),
    }
}

/// Reads a map, if one is named.
pub(crate) fn read_named<D: Site>(
    alloc: Global,
    site: &mut D,
    which: Which,
    name: Option<&str>,
    loose: bool,
) -> Result<Option<PlainTiles>, ShowEnding>
    ensures told { ReadsNamed which (map_mode loose) (option_map (λ n. n.now) name.entry) result
        (D.state site.old) (D.state site.new) }
    ensures kept { OnOk result ((D.state site.new).faults ≡ (D.state site.old).faults) }
    ensures cause { IfErr result (λ e. ReadCause e (D.state site.old) (D.state site.new)) }
    ensures site { Stays (D.state site.old) (D.state site.new) }
{
    let Some(name) = name else { return Ok(None) };
    match read_map(alloc, site, which, name, loose) {
        Ok(tiles) => Ok(Some(tiles)),
        Err(refusal) => Err(refusal),
    }
}
