//! What a run begins with.
ghost use Rattle.std.specs.Prelude.{◌≡◌, ℕ, ◌<◌, ◌^◌, List, Option, IfOk};
ghost use Rattle.block_list.specs.Tiled.{Tiled};
ghost use Rattle.block_list.specs.declared.status.Status.{Status};
ghost use Rattle.mapfile_text.specs.declared.state.MapState.{MapState as State};
ghost use Rattle.rescue_rules.specs.Beginning.{goes_on_from};
ghost use Rattle.rescue_rules.specs.Snapshots.{heading_at};
ghost use Rattle.ddrescue_words.specs.Asking.{AreInLimits, told_by};
ghost use Rattle.task_files.specs.Asked.{Maps, ArePlacedBy};
ghost use Rattle.task_files.specs.Steps.{maps_read, SuitsInput};
ghost use Rattle.task_rescue.specs.Running.{IsReady, IsRunOver, MayBegin};

use block_list::tiles::NoMemory;
use ddrescue_words::command::Command;
use map_preparation::prepare::prepare;
use mapfile_save::names::Names;
use mapfile_text::heading::Heading;
use mapfile_text::state::{Current, MapState};
use rescue_core::phases::{Copying, Rescue};
use rescue_domain::domain::Domain;
use std::alloc::Global;
use task_files::load::{LoadedFiles, LoadedMap, RunMap};
use task_files::maps::domain_of;
use task_files::settings::{make_opening, settings_for};

/// The state that copying resumes from, if a mapfile shows one.
fn copying_from(try_again: bool, state: Option<MapState>) -> Option<MapState>
    ensures { result ≡ goes_on_from try_again state }
{
    let shown = state?;
    match shown.current {
        Current::Copying if !try_again => Some(shown),
        _ => None,
    }
}

/// What a run begins with: all that it wants memory for.
#[derive(Drop)]
pub struct RunMemory {
    pub domain: Domain,
    /// What is made of the map that it goes on with.
    pub tiles: RunMap,
    /// The state that the mapfile showed, if there is one.
    pub state: Option<MapState>,
    /// Room for a cluster.
    pub buf: Vec<u8>,
    /// The line that says how much is asked for, if there is one.
    pub opening: Option<Vec<u8>>,
}

/// Takes the memory that a run wants over the map that a rescue goes on with, and prepares that map.
pub fn make_ready(
    alloc: Global,
    command: Command<'_>,
    loaded: LoadedFiles,
) -> Result<RunMemory, NoMemory>
    requires limits { AreInLimits (told_by command).options }
    requires end { loaded.end < 2 ^ 63 }
    requires fits { SuitsInput loaded.end loaded.map.tiles.statuses loaded.map.state }
    ensures ready { (test : Option Tiled) → IfOk result (λ ready. IsReady (told_by command.entry) loaded.end
        (maps_read (told_by command.entry).options loaded.domain_map test loaded.map) loaded.map.tiles.statuses
        loaded.map.state ready) }
    ensures begins { IfOk result (λ ready. MayBegin (told_by command.entry).options ready) }
{
    let options = command.options;
    let domain = domain_of(alloc, &options, &loaded)?;
    let LoadedMap {
        mut tiles,
        state,
        ..
    } = loaded.map;
    prepare(&mut tiles, &domain, options.try_again, options.retrim)?;
    let opening = make_opening(alloc, command, &domain)?;
    let Ok(buf) = vec![in alloc; 0; options.cluster() as usize] else {
        return Err(NoMemory);
    };
    Ok(RunMemory {
        domain,
        tiles,
        state,
        buf,
        opening,
    })
}

/// Begins a run at this moment (milliseconds since 1970), which is heard or not.
pub fn begin(
    ready: RunMemory,
    command: Command<'_>,
    names: Option<Names>,
    heading: Heading,
    moment: u64,
    heard: bool,
) -> Rescue<Copying, RunMap>
    requires heading { heading ≡ heading_at heading.line 0 0 }
    requires limits { AreInLimits (told_by command).options }
    requires begins { MayBegin (told_by command).options ready }
    ensures { (end : ℕ) (maps : Maps) (statuses : List Status) (state : Option State)
        → ArePlacedBy (told_by command.entry).options end → SuitsInput end statuses state
        → IsReady (told_by command.entry) end maps statuses state ready
        → IsRunOver names heading.line (told_by command.entry).options end maps statuses state moment heard result }
{
    let RunMemory {
        domain,
        tiles,
        state,
        buf,
        opening: _,
    } = ready;
    let settings = settings_for(&command.options);
    let from = copying_from(command.options.try_again, state);
    let mut rescue = Rescue::start(
        buf, settings, domain, tiles, from, names, heading, moment, heard,
    );
    if let Some(state) = state {
        rescue.show_loaded(state);
    }
    rescue
}
