//! The maps that options name, and the positions that they leave to be rescued.
ghost use Rattle.std.specs.Prelude.{◌≡◌, ◌<◌, ◌^◌, ℕ, Option, OnOk, IfOk, IfErr, option_map};
ghost use Rattle.block_list.specs.Tiled.{Tiled};
ghost use Rattle.crash_site.specs.SiteChanges.{Stays};
ghost use Rattle.rescue_domain.specs.Parts.{covers};
ghost use Rattle.task_files.specs.Asked.{domain_asked};
ghost use Rattle.mapfile_resume.specs.Named.{map_mode};
ghost use Rattle.task_files.specs.Steps.{refusal_of, ReadsMap, MapCause, maps_read};

use crate::ending::{Ending, Which};
use crate::load::LoadedFiles;
use block_list::tiles::NoMemory;
use crash_site::site::{Site, SiteCall};
use ddrescue_words::options::Options;
use mapfile_reader::read::ReadMap;
use mapfile_resume::named::{NamedFault, load_named};
use plain_blocks::plain_tiles::PlainTiles;
use rescue_domain::domain::Domain;
use std::alloc::Global;

/// The answer for a map that an option names and that couldn't be loaded.
fn refusal(which: Which, fault: NamedFault) -> Ending
    ensures { result ≡ refusal_of which fault }
{
    match fault {
        NamedFault::ReadFailed => Ending::SiteFault {
            call: SiteCall::MapRead,
            earlier: None,
        },
        NamedFault::Absent => Ending::NoMap(which),
        NamedFault::Refused(error) => Ending::MapRefused { which, error },
        NamedFault::NoMemory => Ending::NoMemory,
    }
}

/// Reads the map that an option names, if one is named; a loose one may have gaps.
pub fn read_named<D: Site>(
    alloc: Global,
    site: &mut D,
    which: Which,
    name: Option<&str>,
    loose: bool,
) -> Result<Option<PlainTiles>, Ending>
    ensures told { ReadsMap which (map_mode loose) (option_map (λ n. n.now) name.entry) result
        (D.state site.old) (D.state site.new) }
    ensures kept { OnOk result ((D.state site.new).faults ≡ (D.state site.old).faults) }
    ensures cause { IfErr result (λ e. MapCause which e (D.state site.old).faults (D.state site.new).faults) }
    ensures site { Stays (D.state site.old) (D.state site.new) }
{
    let Some(name) = name else { return Ok(None) };
    match load_named(alloc, site, name, loose) {
        Ok(ReadMap { tiles, .. }) => Ok(Some(tiles)),
        Err(fault) => Err(refusal(which, fault)),
    }
}

/// The positions that options and maps ask for.
pub fn domain_of(alloc: Global, options: &Options, loaded: &LoadedFiles) -> Result<Domain, NoMemory>
    requires end { loaded.now.end < 2 ^ 63 }
    ensures { (test : Option Tiled) → IfOk result (λ d. (x : ℕ) → covers d x ≡ domain_asked options.now loaded.now.end
        (maps_read options.now loaded.now.domain_map test loaded.now.map) x) }
{
    let from = options.input_position;
    let domain_map = loaded.domain_map.as_ref();
    let mut domain = Domain::within(alloc, from, options.size, loaded.end, domain_map)?;
    if options.complete_only {
        domain.keep_listed(loaded.map.first, loaded.map.listed_end);
    }
    Ok(domain)
}
