//! Resumes from a mapfile, after a barrier.
ghost use Rattle.std.specs.Prelude.{◌≡◌, ◌≢◌, ◌<◌, ◌≤◌, ◌^◌, IsTrue, length, OnOk, IfErr};
ghost use Rattle.block_list.specs.Map.{extended};
ghost use Rattle.mapfile_text.specs.declared.read.MapError.TheVariants.{NoStatusLine as Nothing};
ghost use Rattle.crash_site.specs.SiteState.{files_in};
ghost use Rattle.crash_site.specs.SiteChanges.{Makes, Breaks, Stays};
ghost use Rattle.mapfile_resume.specs.declared.load.ResumeFault.TheVariants.{Map as Refused};
ghost use Rattle.mapfile_resume.specs.Resuming.{IsResumeCall, resumed_of, IsOfFile, ResumesAs, Resumes, CountsFaults, SettlesAll, ResumedWithinLimits};
ghost use Rattle.mapfile_save.specs.Loading.{barrier_calls};

use crate::load::{ResumeFault, load_map};
use block_list::tiles::{NoMemory, Tiles};
use crash_site::site::{Site, SiteCall};
use mapfile_reader::read::ReadMap;
use mapfile_save::names::Names;
use mapfile_text::read::{MapError, Mode};
use plain_blocks::plain_tiles::PlainTiles;
use std::alloc::Global;

/// What a rescue goes on with.
#[derive(Drop)]
pub enum Resumed {
    /// No mapfile is there, or one that says nothing.
    Fresh,
    /// This map.
    Map(ReadMap),
}

/// Makes the mapfile and the open image durable as they read, or answers the call that failed.
fn make_durable<D: Site>(site: &mut D, names: &Names) -> Result<(), SiteCall>
    ensures made { OnOk result (Makes (barrier_calls names.now) (D.state site.old) (D.state site.new)) }
    ensures broke { IfErr result (λ call. Breaks call (barrier_calls names.now) (D.state site.old) (D.state site.new)) }
    ensures named { IfErr result IsResumeCall }
    ensures stays { Stays (D.state site.old) (D.state site.new) }
{
    if site.map_settle(names.map()).is_err() {
        return Err(SiteCall::MapSettle);
    }
    if site.image_sync().is_err() {
        return Err(SiteCall::ImageSync);
    }
    Ok(())
}

/// What a rescue goes on with, by what its mapfile was read as.
fn answer(read: Result<Option<ReadMap>, ResumeFault>) -> Result<Resumed, ResumeFault>
    ensures { result ≡ resumed_of read }
{
    match read {
        Ok(Some(map)) => Ok(Resumed::Map(map)),
        Ok(None) | Err(ResumeFault::Map(MapError::NoStatusLine)) => Ok(Resumed::Fresh),
        Err(fault) => Err(fault),
    }
}

/// Settles the mapfile and syncs the image, so that nothing of an earlier run is pending, and then reads the mapfile.
/// One that says nothing is like none.
pub fn resume<D: Site>(alloc: Global, site: &mut D, names: &Names) -> Result<Resumed, ResumeFault>
    ensures told { IsTrue (D.state site.old).tells
        → Resumes names.now (files_in (D.state site.old) names.now.map) result
        (D.state site.old).calls (D.state site.new).calls }
    ensures read { IsOfFile (files_in (D.state site.old) names.now.map) (D.state site.old).tells (ResumesAs result) }
    ensures settled { IsTrue (D.state site.old).tells
        → SettlesAll names.now result (D.state site.old) (D.state site.new) }
    ensures counts { CountsFaults result (D.state site.old).faults (D.state site.new).faults }
    ensures says { IfErr result (λ e. e ≢ Refused Nothing) }
    ensures limits { ResumedWithinLimits result }
    ensures stays { Stays (D.state site.old) (D.state site.new) }
{
    if let Err(call) = make_durable(site, names) {
        return Err(ResumeFault::Site(call));
    }
    answer(load_map(alloc, site, names.map(), Mode::Tight))
}

/// Adds non-tried positions up to an end, if the map ends earlier.
pub fn extend_map(tiles: &mut PlainTiles, end: u64) -> Result<(), NoMemory>
    requires { end < 2 ^ 63 }
    ensures extended { OnOk result (tiles.new.statuses ≡ extended tiles.old.statuses end) }
    ensures long { OnOk result (end ≤ length tiles.new.statuses) }
    ensures short { OnOk result (length tiles.new.statuses < 2 ^ 63) }
{
    if tiles.end() < end {
        tiles.reserve(1)?;
        tiles.extend_to(end);
    }
    Ok(())
}
