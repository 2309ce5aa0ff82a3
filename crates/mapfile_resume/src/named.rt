//! Loads a map that an option names.
ghost use Rattle.std.specs.Prelude.{◌≡◌, IsTrue, IfOk};
ghost use Rattle.crash_site.specs.SiteState.{files_in};
ghost use Rattle.crash_site.specs.SiteChanges.{Stays};
ghost use Rattle.mapfile_resume.specs.Resuming.{IsOfFile, IsWithinLimits};
ghost use Rattle.mapfile_resume.specs.Named.{map_mode, named_of, LoadsNamed, IsNamedAs, NamedCounts};

use crate::load::{ResumeFault, load_map};
use block_list::status::Status;
use crash_site::site::Site;
use mapfile_reader::read::ReadMap;
use mapfile_text::read::{MapError, Mode};
use std::alloc::Global;

/// Why there is no map by a name.
#[derive(Clone, Copy, Debug, PartialEq, Eq)]
pub enum NamedFault {
    /// A read of the file failed.
    ReadFailed,
    /// No such file is there.
    Absent,
    /// The text is no map, or is too long.
    Refused(MapError),
    /// There wasn't enough memory.
    NoMemory,
}

/// How a named map is read: a loose one may have gaps.
pub fn mode_of(loose: bool) -> Mode
    ensures { result ≡ map_mode loose }
{
    if loose {
        Mode::Loose(Status::NonTried)
    } else {
        Mode::Tight
    }
}

/// The answer for a map that must be there, by what its load found.
fn named(found: Result<Option<ReadMap>, ResumeFault>) -> Result<ReadMap, NamedFault>
    ensures { result ≡ named_of found }
{
    match found {
        Ok(Some(map)) => Ok(map),
        Ok(None) => Err(NamedFault::Absent),
        Err(ResumeFault::Site(_)) => Err(NamedFault::ReadFailed),
        Err(ResumeFault::Map(error)) => Err(NamedFault::Refused(error)),
        Err(ResumeFault::NoMemory) => Err(NamedFault::NoMemory),
    }
}

/// Reads the map with a name, by reads that ask for 4,096 bytes each.
pub fn load_named<D: Site>(
    alloc: Global,
    site: &mut D,
    name: &str,
    loose: bool,
) -> Result<ReadMap, NamedFault>
    ensures told { IsTrue (D.state site.old).tells
        → LoadsNamed name.now (map_mode loose) (files_in (D.state site.old) name.now) result
        (D.state site.old).calls (D.state site.new).calls }
    ensures read { IsOfFile (files_in (D.state site.old) name.now) (D.state site.old).tells
        (IsNamedAs (map_mode loose) result) }
    ensures counts { NamedCounts result (D.state site.old).faults (D.state site.new).faults }
    ensures limits { IfOk result IsWithinLimits }
    ensures stays { Stays (D.state site.old) (D.state site.new) }
{
    named(load_map(alloc, site, name, mode_of(loose)))
}
