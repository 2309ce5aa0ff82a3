//! What a rescue begins with: the map that its mapfile stands for.
ghost use Rattle.std.specs.Prelude.{◌≡◌, ◌<◌, ◌≤◌, ◌^◌, Some, length, OnOk, IfOk, IfErr};
ghost use Rattle.block_list.specs.Map.{extended};
ghost use Rattle.crash_site.specs.SiteChanges.{Stays};
ghost use Rattle.rescue_rules.specs.Start.{IsFresh};
ghost use Rattle.task_files.specs.declared.ending.Ending.TheVariants.{NoMemory as OutOfMemory};
ghost use Rattle.task_files.specs.Steps.{SuitsInput, LoadCause, Loads, mapfile_by};

use crate::ending::{Ending, Which};
use block_list::tiles::Tiles;
use crash_site::site::Site;
use mapfile_reader::read::ReadMap;
use mapfile_resume::load::ResumeFault;
use mapfile_resume::resume::{Resumed, extend_map, resume};
use mapfile_save::names::Names;
use mapfile_text::state::MapState;
use paged_blocks::paged_tiles::PagedTiles;
use plain_blocks::plain_tiles::PlainTiles;
use std::alloc::Global;

/// The map of a run.
pub type RunMap = PagedTiles;

/// The map that a rescue goes on with, and the state that its mapfile shows, if there is one.
#[derive(Drop)]
pub struct LoadedMap {
    pub tiles: RunMap,
    pub state: Option<MapState>,
    /// Where the first block that the mapfile lists begins, and where the last one ends.
    pub first: u64,
    pub listed_end: u64,
}

/// What was loaded of the files before a run.
#[derive(Drop)]
pub struct LoadedFiles {
    /// The map whose finished positions are asked for and no others, if it is named.
    pub domain_map: Option<PlainTiles>,
    /// The map that the mapfile stands for.
    pub map: LoadedMap,
    /// Where the input ends, or, in fill mode, where the map ends: only positions below it are asked for.
    pub end: u64,
}

/// The map of a run: that of a list, and non-tried positions up to an end, if it ends earlier.
fn run_map(alloc: Global, mut tiles: PlainTiles, end: u64) -> Result<RunMap, Ending>
    requires { end < 2 ^ 63 }
    ensures extended { IfOk result (λ map. map.statuses ≡ extended tiles.statuses end) }
    ensures long { IfOk result (λ map. end ≤ length map.statuses) }
    ensures short { IfOk result (λ map. length map.statuses < 2 ^ 63) }
    ensures starved { IfErr result (λ e. e ≡ OutOfMemory) }
{
    extend_map(&mut tiles, end)?;
    Ok(PagedTiles::from_plain(alloc, &tiles)?)
}

/// What a rescue of an input that wasn't read yet begins with.
pub fn start_fresh(alloc: Global, end: u64) -> Result<LoadedMap, Ending>
    requires { end < 2 ^ 63 }
    ensures fresh { IfOk result (λ start. IsFresh end start.tiles.statuses start.state) }
    ensures fits { IfOk result (λ start. SuitsInput end start.tiles.statuses start.state) }
    ensures lists { IfOk result (λ start. (start.first ≡ 0) × (start.listed_end ≡ 0)) }
    ensures starved { IfErr result (λ e. e ≡ OutOfMemory) }
{
    Ok(LoadedMap {
        tiles: run_map(alloc, PlainTiles::new(alloc), end)?,
        state: None,
        first: 0,
        listed_end: 0,
    })
}

/// What a rescue begins with that goes on with a map.
fn start_from(alloc: Global, map: ReadMap, end: u64) -> Result<LoadedMap, Ending>
    requires end { end < 2 ^ 63 }
    requires pos { map.state.pos < 2 ^ 63 }
    requires pass { 0 < map.state.pass }
    ensures extended { IfOk result (λ start. start.tiles.statuses ≡ extended map.tiles.statuses end) }
    ensures shown { IfOk result (λ start. start.state ≡ Some map.state) }
    ensures fits { IfOk result (λ start. SuitsInput end start.tiles.statuses start.state) }
    ensures lists { IfOk result (λ start. (start.first ≡ map.first) × (start.listed_end ≡ length map.tiles.statuses)) }
    ensures starved { IfErr result (λ e. e ≡ OutOfMemory) }
{
    let ReadMap {
        state,
        first,
        tiles,
        ..
    } = map;
    let listed_end = tiles.end();
    Ok(LoadedMap {
        tiles: run_map(alloc, tiles, end)?,
        state: Some(state),
        first,
        listed_end,
    })
}

/// Makes the mapfile and the open output durable as they read, loads the mapfile, and makes its map reach an end.
fn load_mapfile<D: Site>(
    alloc: Global,
    site: &mut D,
    names: &Names,
    end: u64,
) -> Result<LoadedMap, Ending>
    requires { end < 2 ^ 63 }
    ensures loaded { Loads (Some names.now.map) end result (D.state site.old) (D.state site.new) }
    ensures fits { IfOk result (λ now. SuitsInput end now.tiles.statuses now.state) }
    ensures kept { OnOk result ((D.state site.new).faults ≡ (D.state site.old).faults) }
    ensures cause { IfErr result (λ e. LoadCause e (D.state site.old).faults (D.state site.new).faults) }
    ensures site { Stays (D.state site.old) (D.state site.new) }
{
    match resume(alloc, site, names) {
        Ok(Resumed::Fresh) => start_fresh(alloc, end),
        Ok(Resumed::Map(map)) => start_from(alloc, map, end),
        Err(ResumeFault::Site(call)) => Err(Ending::SiteFault {
            call,
            earlier: None,
        }),
        Err(ResumeFault::Map(error)) => Err(Ending::MapRefused {
            which: Which::RunMap,
            error,
        }),
        Err(ResumeFault::NoMemory) => Err(Ending::NoMemory),
    }
}

/// Makes the mapfile and the open output durable as they read, loads the mapfile, and makes its map reach an end, if
/// there is a mapfile. Without one the map is that of an input that wasn't read yet.
pub fn load<D: Site>(
    alloc: Global,
    site: &mut D,
    names: &Option<Names>,
    end: u64,
) -> Result<LoadedMap, Ending>
    requires { end < 2 ^ 63 }
    ensures loaded { Loads (mapfile_by names.now) end result (D.state site.old) (D.state site.new) }
    ensures fits { IfOk result (λ now. SuitsInput end now.tiles.statuses now.state) }
    ensures kept { OnOk result ((D.state site.new).faults ≡ (D.state site.old).faults) }
    ensures cause { IfErr result (λ e. LoadCause e (D.state site.old).faults (D.state site.new).faults) }
    ensures site { Stays (D.state site.old) (D.state site.new) }
{
    match names {
        Some(names) => load_mapfile(alloc, site, names, end),
        None => start_fresh(alloc, end),
    }
}
