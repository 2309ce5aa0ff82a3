//! Reads the maps that the words name, and says which positions of them are examined.
ghost use Rattle.std.specs.Prelude.{◌≡◌, false, OnOk, IfOk, IfErr, option_map};
ghost use Rattle.crash_site.specs.SiteChanges.{Stays};
ghost use Rattle.mapfile_resume.specs.Resuming.{IsWithinLimits};
ghost use Rattle.ddrescuelog_words.specs.Modes.{creates};
ghost use Rattle.ddrescuelog_words.specs.Command.{told_by};
ghost use Rattle.ddrescuelog_cli.specs.declared.ending.LogEnding.TheVariants.{NoMemory as OutOfMemory};
ghost use Rattle.ddrescuelog_cli.specs.Steps.{ReadsMap, ReadsNamed, ReadCause, LoadsMaps, IsLoadedAs, maps_read};

use crate::ending::{LogEnding, Which};
use block_list::tiles::Tiles;
use crash_site::site::{Site, SiteCall};
use ddrescuelog_words::command::Command;
use mapfile_reader::read::ReadMap;
use mapfile_resume::load::{ResumeFault, load_map};
use mapfile_resume::named::mode_of;
use mapfile_text::read::Mode;
use mapfile_text::state::MapState;
use plain_blocks::plain_tiles::PlainTiles;
use rescue_domain::domain::Domain;
use std::alloc::Global;

/// Reads a map, which must be there.
fn read_map<D: Site>(
    alloc: Global,
    site: &mut D,
    which: Which,
    name: &str,
    mode: Mode,
) -> Result<ReadMap, LogEnding>
    ensures read { ReadsMap which mode name.now result (D.state site.old) (D.state site.new) }
    ensures kept { OnOk result ((D.state site.new).faults ≡ (D.state site.old).faults) }
    ensures cause { IfErr result (λ e. ReadCause e (D.state site.old).faults (D.state site.new).faults) }
    ensures limits { IfOk result IsWithinLimits }
    ensures site { Stays (D.state site.old) (D.state site.new) }
{
    match load_map(alloc, site, name, mode) {
        Ok(Some(map)) => Ok(map),
        Ok(None) => Err(LogEnding::NoMap(which)),
        Err(ResumeFault::Site(_)) => Err(LogEnding::SiteFault {
            call: SiteCall::MapRead,
        }),
        Err(ResumeFault::Map(error)) => Err(LogEnding::MapRefused { which, error }),
        Err(ResumeFault::NoMemory) => Err(LogEnding::NoMemory),
    }
}

/// Reads a map, if one is named.
pub(crate) fn read_named<D: Site>(
    alloc: Global,
    site: &mut D,
    which: Which,
    name: Option<&str>,
    mode: Mode,
) -> Result<Option<PlainTiles>, LogEnding>
    ensures read { ReadsNamed which mode (option_map (λ n. n.now) name.entry) result
        (D.state site.old) (D.state site.new) }
    ensures kept { OnOk result ((D.state site.new).faults ≡ (D.state site.old).faults) }
    ensures cause { IfErr result (λ e. ReadCause e (D.state site.old).faults (D.state site.new).faults) }
    ensures site { Stays (D.state site.old) (D.state site.new) }
{
    let Some(name) = name else { return Ok(None) };
    match read_map(alloc, site, which, name, mode) {
        Ok(ReadMap { tiles, .. }) => Ok(Some(tiles)),
        Err(refusal) => Err(refusal),
    }
}

/// What the maps say, and the positions that are examined.
#[derive(Drop)]
pub(crate) struct LoadedMaps {
    /// What the mapfile shows.
    pub state: MapState,
    pub tiles: PlainTiles,
    /// The other map. It has no position if none is named.
    pub other: PlainTiles,
    pub domain: Domain,
}

/// What maps say that were read, and the positions that are examined: they end with the longer map.
fn make_loaded(
    alloc: Global,
    command: &Command,
    map: ReadMap,
    other: Option<PlainTiles>,
    domain_map: &Option<PlainTiles>,
) -> Result<LoadedMaps, LogEnding>
    ensures loaded { IfOk result (IsLoadedAs (told_by command.now) (maps_read map other domain_map.now)) }
    ensures starved { IfErr result (λ e. e ≡ OutOfMemory) }
{
    let ReadMap { state, tiles, .. } = map;
    let other = match other {
        Some(other) => other,
        None => PlainTiles::new(alloc),
    };
    let end = tiles.end().max(other.end());
    let from = command.options.input_position;
    Ok(LoadedMaps {
        state,
        tiles,
        other,
        domain: Domain::within(alloc, from, command.options.size, end, domain_map.as_ref())?,
    })
}

/// Reads the maps of a mode that reads its mapfile: the mapfile, the other map and the domain map, in this order.
pub(crate) fn load_maps<D: Site>(
    alloc: Global,
    site: &mut D,
    command: &Command,
) -> Result<LoadedMaps, LogEnding>
    requires { creates (told_by command.now).mode ≡ false }
    ensures maps { LoadsMaps (told_by command.now) result (D.state site.old) (D.state site.new) }
    ensures kept { OnOk result ((D.state site.new).faults ≡ (D.state site.old).faults) }
    ensures cause { IfErr result (λ e. ReadCause e (D.state site.old).faults (D.state site.new).faults) }
    ensures site { Stays (D.state site.old) (D.state site.new) }
{
    let mode = command.mode.row().mapfile;
    let map = read_map(alloc, site, Which::RunMap, command.mapfile, mode)?;
    let other = read_named(alloc, site, Which::OtherMap, command.other, Mode::Tight)?;
    let mode = mode_of(command.options.loose);
    let domain_map = read_named(alloc, site, Which::DomainMap, command.domain_map, mode)?;
    make_loaded(alloc, command, map, other, &domain_map)
}
