//! Opens the output, and loads the map that the mapfile stands for.
ghost use Rattle.std.specs.Prelude.{◌≡◌, ◌<◌, ◌≤◌, ◌^◌, true, length, OnOk, IfOk, IfErr};
ghost use Rattle.block_list.specs.Map.{extended};
ghost use Rattle.crash_site.specs.SiteChanges.{Keeps, Stays};
ghost use Rattle.ddrescueverify_cli.specs.declared.ending.VerifyEnding.TheVariants.{NoMemory as OutOfMemory};
ghost use Rattle.ddrescueverify_cli.specs.Steps.{LoadCause, Loads, OpensOutput, OutputCause};

use crate::ending::{VerifyEnding, Which};
use crash_site::site::{ImageKind, Site, SiteCall};
use mapfile_reader::read::ReadMap;
use mapfile_resume::load::ResumeFault;
use mapfile_resume::resume::{Resumed, extend_map, resume};
use mapfile_save::names::Names;
use mapfile_text::state::MapState;
use plain_blocks::plain_tiles::PlainTiles;
use std::alloc::Global;

/// The map of a comparison.
pub type RunMap = PlainTiles;

/// Opens the outfile, of whichever kind it is, which must be there.
pub(crate) fn open_output<D: Site>(site: &mut D, outfile: &str) -> Result<(), VerifyEnding>
    ensures open { OnOk result ((D.state site.new).is_open ≡ true) }
    ensures opens { OpensOutput outfile.now result (D.state site.old) (D.state site.new) }
    ensures kept { OnOk result ((D.state site.new).faults ≡ (D.state site.old).faults) }
    ensures cause { IfErr result (λ e. OutputCause e (D.state site.old).faults (D.state site.new).faults) }
    ensures draft { (D.state site.new).is_drafting ≡ (D.state site.old).is_drafting }
    ensures keeps { Keeps (D.state site.old) (D.state site.new) }
{
    match site.image_open(outfile, false) {
        Ok(ImageKind::Absent) => Err(VerifyEnding::NoOutput),
        Ok(_) => Ok(()),
        Err(_) => Err(VerifyEnding::SiteFault {
            call: SiteCall::ImageOpen,
        }),
    }
}

/// The map that a comparison begins with, and the state that its mapfile shows.
#[derive(Drop)]
pub(crate) struct LoadedMap {
    pub tiles: RunMap,
    pub state: MapState,
}

/// What a comparison begins with, by the mapfile's map.
fn begin_with(map: ReadMap, end: u64) -> Result<LoadedMap, VerifyEnding>
    requires { end < 2 ^ 63 }
    ensures extended { IfOk result (λ now. now.tiles.statuses ≡ extended map.tiles.statuses end) }
    ensures shown { IfOk result (λ now. now.state ≡ map.state) }
    ensures long { IfOk result (λ now. end ≤ length now.tiles.statuses) }
    ensures starved { IfErr result (λ e. e ≡ OutOfMemory) }
{
    let ReadMap {
        state,
        mut tiles,
        ..
    } = map;
    extend_map(&mut tiles, end)?;
    Ok(LoadedMap { tiles, state })
}

/// Makes the mapfile and the open output durable as they read, loads the mapfile, which must say something, and makes
/// its map reach an end.
pub(crate) fn load<D: Site>(
    alloc: Global,
    site: &mut D,
    names: &Names,
    end: u64,
) -> Result<LoadedMap, VerifyEnding>
    requires { end < 2 ^ 63 }
    ensures loaded { Loads names.now.map end result (D.state site.old) (D.state site.new) }
    ensures long { IfOk result (λ now. end ≤ length now.tiles.statuses) }
    ensures kept { OnOk result ((D.state site.new).faults ≡ (D.state site.old).faults) }
    ensures cause { IfErr result (λ e. LoadCause e (D.state site.old).faults (D.state site.new).faults) }
    ensures site { Stays (D.state site.old) (D.state site.new) }
{
    match resume(alloc, site, names) {
        Ok(Resumed::Fresh) => Err(VerifyEnding::NoMap),
        Ok(Resumed::Map(map)) => begin_with(map, end),
        Err(ResumeFault::Site(call)) => Err(VerifyEnding::SiteFault { call }),
        Err(ResumeFault::Map(error)) => Err(VerifyEnding::MapRefused {
            which: Which::RunMap,
            error,
        }),
        Err(ResumeFault::NoMemory) => Err(VerifyEnding::NoMemory),
    }
}
