//! What fill mode and generate mode begin with.
ghost use Rattle.std.specs.Prelude.{ℕ, ◌<◌, ◌≤◌, ◌^◌, List, Option, IfOk, length};
ghost use Rattle.block_list.specs.Tiled.{Tiled};
ghost use Rattle.block_list.specs.declared.status.Status.{Status};
ghost use Rattle.mapfile_text.specs.declared.state.MapState.{MapState as State};
ghost use Rattle.ddrescue_words.specs.Asking.{AreInLimits, told_by};
ghost use Rattle.task_files.specs.Asked.{Maps, ArePlacedBy};
ghost use Rattle.task_files.specs.Steps.{maps_read};
ghost use Rattle.task_sweeps.specs.SweepSteps.{IsJobOver, IsSweepReady};

use block_list::tiles::NoMemory;
use ddrescue_words::command::Command;
use fill_generate::job::Job;
use mapfile_save::names::Names;
use mapfile_text::heading::Heading;
use mapfile_text::state::MapState;
use rescue_domain::domain::Domain;
use std::alloc::Global;
use task_files::load::{LoadedFiles, LoadedMap, RunMap};
use task_files::maps::domain_of;
use task_files::settings::{make_opening, settings_for};

/// What a sweep begins with: all that it wants memory for.
#[derive(Drop)]
pub struct SweepReady {
    pub domain: Domain,
    /// The map that its mapfile stands for.
    pub tiles: RunMap,
    /// The state that the mapfile showed, if it was there.
    pub state: Option<MapState>,
    /// The line that says how much is asked for, if there is one.
    pub opening: Option<Vec<u8>>,
}

/// Takes the memory that a sweep wants over the map that its mapfile stands for.
pub fn make_sweep(
    alloc: Global,
    command: Command<'_>,
    loaded: LoadedFiles,
) -> Result<SweepReady, NoMemory>
    requires limits { AreInLimits (told_by command).options }
    requires short { loaded.end < 2 ^ 63 }
    requires within { loaded.end ≤ length loaded.map.tiles.statuses }
    ensures { (test : Option Tiled) → IfOk result (λ ready. IsSweepReady (told_by command.entry) loaded.end
        (maps_read (told_by command.entry).options loaded.domain_map test loaded.map) loaded.map.tiles.statuses
        loaded.map.state ready) }
{
    let domain = domain_of(alloc, &command.options, &loaded)?;
    let opening = make_opening(alloc, command, &domain)?;
    let LoadedMap { tiles, state, .. } = loaded.map;
    Ok(SweepReady {
        domain,
        tiles,
        state,
        opening,
    })
}

/// What a sweep is asked to do from a moment on (milliseconds since 1970), which is heard or not.
pub fn make_job(
    ready: SweepReady,
    command: Command<'_>,
    names: Names,
    heading: Heading,
    moment: u64,
    heard: bool,
) -> Job<RunMap>
    requires limits { AreInLimits (told_by command).options }
    ensures { (limit : ℕ) (maps : Maps) (statuses : List Status) (state : Option State)
        → ArePlacedBy (told_by command.entry).options limit
        → IsSweepReady (told_by command.entry) limit maps statuses state ready
        → IsJobOver names heading (told_by command.entry).options limit maps statuses state moment heard result }
{
    Job {
        settings: settings_for(&command.options),
        domain: ready.domain,
        tiles: ready.tiles,
        loaded: ready.state,
        names,
        heading,
        moment,
        heard,
    }
}
