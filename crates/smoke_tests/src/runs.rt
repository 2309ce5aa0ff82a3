//! A test of a run over real files.
ghost use Rattle.std.specs.Prelude.{◌<◌, ◌^◌, IfOk};
ghost use Rattle.run_options.specs.Settings.{HasPlaces};
ghost use Rattle.rescue_domain.specs.Parts.{covers};
ghost use Rattle.rescue_phases.specs.Copying.{MayCopy};

use crate::files::own_name;
use ddrescue_words::command::sample_command;
use faulty_source::source::Source;
use file_source::file::FileSource;
use folder_site::folder::FolderSite;
use mapfile_text::heading::{Heading, Program};
use paged_blocks::paged_tiles::PagedTiles;
use rescue_console::clock::Clock;
use rescue_console::system::{StdConsole, SystemClock};
use rescue_core::closing::Closed;
use rescue_core::phases::{Copying, Rescue};
use rescue_rules::stop::RunEnd;
use std::alloc::Global;
use std::fs;
use std::test::Fail;
use task_files::checked::make_names;
use task_files::load::{LoadedFiles, start_fresh};
use task_files::open::open_output;
use task_rescue::ready::{begin, make_ready};
use task_rescue::run::run_rescue;

/// The size of the input: more than a cluster, and no multiple of a sector.
const SIZE: u64 = 70_001;

/// How a mapfile ends that calls the whole input finished.
const MAP_END: &str = "     +               1
#      pos        size  status
0x00000000  0x00011171  +
";

/// A rescue of an input that wasn't read yet. Its map is in pages: with one of another type this doesn't compile.
fn begin_fresh(
    alloc: Global,
    end: u64,
    mapfile: &str,
    moment: u64,
) -> Result<Rescue<Copying, PagedTiles>, Fail>
    requires { end < 2 ^ 63 }
    ensures copying { IfOk result (λ r. MayCopy r) }
    ensures places { IfOk result (λ r. HasPlaces r.settings (covers r.domain)) }
{
    let command = sample_command();
    let names = make_names(alloc, Some(mapfile))?;
    let heading = Heading::new(alloc, Program::Ddrescue, "ddrescue in out map")?;
    let map = start_fresh(alloc, end)?;
    let loaded = LoadedFiles {
        domain_map: None,
        map,
        end,
    };
    let ready = make_ready(alloc, command, loaded)?;
    Ok(begin(ready, command, names, heading, moment, true))
}

#[test]
fn a_run_rescues_a_file(rt: HostRuntime) -> Result<(), Fail> {
    let folder = own_name(&rt, "run")?;
    fs::create_dir(&rt, folder.as_path())?;
    let infile = folder.join(rt.alloc(), "in")?;
    let outfile = folder.join(rt.alloc(), "out")?;
    let mapfile = folder.join(rt.alloc(), "map")?;
    let mut bytes = Vec::new(rt.alloc());
    for place in 0..SIZE {
        bytes.push((place % 251) as u8)?;
    }
    fs::write(&rt, &infile, &bytes)?;
    let mut source = FileSource::new(rt.clone()?);
    let mut site = FolderSite::new(rt.clone()?);
    let mut clock = SystemClock::new(rt.clone()?);
    let mut console = StdConsole::new(rt.clone()?);
    let end = source.open_input(infile.as_path().as_str())?;
    open_output(&mut site, outfile.as_path().as_str(), true, false)?;
    let moment = clock.now_ms();
    let rescue = begin_fresh(rt.alloc(), end, mapfile.as_path().as_str(), moment)?;
    let closed = run_rescue(rescue, &mut source, &mut site, &mut clock, &mut console);
    let wanted = Closed {
        end: RunEnd::Done,
        heard: true,
    };
    assert_eq!(rt; closed, wanted);
    assert!(rt; fs::read(&rt, &outfile)? == bytes);
    let text = fs::read_to_string(&rt, &mapfile)?;
    assert!(rt; text.ends_with(MAP_END), "{text}");
    fs::remove_dir_all(&rt, folder.as_path())?;
    Ok(())
}
