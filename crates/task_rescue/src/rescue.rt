//! A rescue: the maps that options name, the files, the mapfile, and the run.
ghost use Rattle.std.specs.Prelude.{◌≡◌, ◌<◌, ◌^◌, false, Option, None};
ghost use Rattle.faulty_source.specs.SourceChanges.{Stays as SourceStays};
ghost use Rattle.block_list.specs.Tiled.{Tiled, statuses_in};
ghost use Rattle.ddrescue_words.specs.Asking.{told_by};
ghost use Rattle.task_files.specs.Asked.{setting_of};
ghost use Rattle.task_files.specs.Steps.{ending_of, heard_after, maps_read, Leaves, DidRun, CanBegin, IsChecked, DidAfterMaps, Worked};
ghost use Rattle.task_rescue.specs.Running.{AreReady};
ghost use Rattle.rescue_core.specs.Outside.{between, AreSame};

use crate::ready::{begin, make_ready};
use crate::run::run_rescue;
use crash_site::site::Site;
use faulty_source::source::Source;
use option_words::fault::UsageFault;
use plain_blocks::plain_tiles::PlainTiles;
use rescue_console::clock::Clock;
use rescue_console::console::Console;
use rescue_core::outside::Outside;
use rescue_domain::test_source::TestSource;
use task_files::checked::CheckedCommand;
use task_files::ending::{Ended, Ending, Which, answer};
use task_files::load::{LoadedFiles, load};
use task_files::maps::read_named;
use task_files::open::open_output;
use task_files::opening::say_line;
use task_files::places::places_fit;

/// The maps that options name, as far as they name some.
#[derive(Drop)]
struct NamedMaps {
    domain_map: Option<PlainTiles>,
    test_map: Option<PlainTiles>,
}

/// What was loaded of the files before a rescue, and the test map, if one is named.
#[derive(Drop)]
struct TestedFiles {
    loaded: LoadedFiles,
    test_map: Option<PlainTiles>,
}

/// Runs the rescue over the map that it goes on with. All memory is taken before the clock is read; the first line is
/// put after that.
fn run<S: Source, D: Site, K: Clock, C: Console>(
    checked: CheckedCommand<'_>,
    loaded: LoadedFiles,
    outside: &mut Outside<S, D, K, C>,
) -> Ended
    requires ready { AreReady (S.state outside.old.source.now) (D.state outside.old.site.now) }
    requires checked { IsChecked checked }
    requires begins { CanBegin (told_by checked.command).options loaded.end loaded.map.tiles.statuses loaded.map.state }
    ensures ran { (test : Option Tiled) → DidRun (setting_of (told_by checked.entry.command) checked.entry.heading.line
        loaded.end (maps_read (told_by checked.entry.command).options loaded.domain_map test loaded.map)) None
        loaded.map.tiles.statuses loaded.map.state checked.entry.heard result.heard
        result.ending (between S.Source D.Site K.Clock C.Console outside.old outside.new) }
    ensures leaves { Leaves result.ending (between S.Source D.Site K.Clock C.Console outside.old outside.new) }
    ensures source { SourceStays (S.state outside.old.source.now) (S.state outside.new.source.now) }
    ensures same { AreSame outside.old outside.new }
{
    let CheckedCommand {
        command,
        names,
        heading,
        heard,
        alloc,
    } = checked;
    let Ok(ready) = make_ready(alloc, command, loaded) else {
        let ending = Ending::NoMemory;
        return Ended { ending, heard };
    };
    let moment = outside.clock.now_ms();
    let heard = say_line(outside.console, &ready.opening, heard);
    let rescue = begin(ready, command, names, heading, moment, heard);
    let closed = run_rescue(
        rescue,
        outside.source,
        outside.site,
        outside.clock,
        outside.console,
    );
    Ended {
        ending: answer(closed.end),
        heard: closed.heard,
    }
}

/// Runs the rescue. If there is a test map, it runs in test mode: the input gives only what is finished in that map.
fn run_tested<S: Source, D: Site, K: Clock, C: Console>(
    checked: CheckedCommand<'_>,
    files: TestedFiles,
    outside: &mut Outside<S, D, K, C>,
) -> Ended
    requires ready { AreReady (S.state outside.old.source.now) (D.state outside.old.site.now) }
    requires checked { IsChecked checked }
    requires begins { CanBegin (told_by checked.command).options files.loaded.end files.loaded.map.tiles.statuses
        files.loaded.map.state }
    ensures ran { DidRun (setting_of (told_by checked.entry.command) checked.entry.heading.line files.loaded.end
        (maps_read (told_by checked.entry.command).options files.loaded.domain_map files.test_map files.loaded.map))
        (statuses_in files.test_map) files.loaded.map.tiles.statuses files.loaded.map.state checked.entry.heard
        result.heard result.ending (between S.Source D.Site K.Clock C.Console outside.old outside.new) }
    ensures leaves { Leaves result.ending (between S.Source D.Site K.Clock C.Console outside.old outside.new) }
    ensures source { SourceStays (S.state outside.old.source.now) (S.state outside.new.source.now) }
    ensures same { AreSame outside.old outside.new }
{
    let TestedFiles { loaded, test_map } = files;
    match &test_map {
        None => run(checked, loaded, outside),
        Some(tiles) => {
            let mut tested = TestSource::new(outside.source, tiles);
            let mut within = Outside {
                source: &mut tested,
                site: outside.site,
                clock: outside.clock,
                console: outside.console,
            };
            run(checked, loaded, &mut within)
        }
    }
}

/// Opens the files, loads the mapfile if there is one, and runs the rescue.
fn open_and_run<S: Source, D: Site, K: Clock, C: Console>(
    checked: CheckedCommand<'_>,
    maps: NamedMaps,
    outside: &mut Outside<S, D, K, C>,
) -> Result<Ended, Ending>
    requires no_draft { (D.state outside.old.site.now).is_drafting ≡ false }
    requires checked { IsChecked checked }
    ensures opened { DidAfterMaps (told_by checked.entry.command) checked.entry.heading.line
        (statuses_in maps.domain_map) (statuses_in maps.test_map) checked.entry.heard
        (heard_after checked.entry.heard result)
        (ending_of result) (between S.Source D.Site K.Clock C.Console outside.old outside.new) }
    ensures leaves { Leaves (ending_of result) (between S.Source D.Site K.Clock C.Console outside.old outside.new) }
    ensures same { AreSame outside.old outside.new }
{
    let command = checked.command;
    let Ok(end) = outside.source.open_input(command.infile) else {
        return Err(Ending::SourceFault);
    };
    open_output(outside.site, command.outfile, true, command.options.forced)?;
    let map = load(checked.alloc, outside.site, &checked.names, end)?;
    if !places_fit(&command.options, end) {
        return Err(Ending::Usage(UsageFault::PlaceTooLarge));
    }
    let NamedMaps {
        domain_map,
        test_map,
    } = maps;
    let loaded = LoadedFiles {
        domain_map,
        map,
        end,
    };
    let files = TestedFiles { loaded, test_map };
    Ok(run_tested(checked, files, outside))
}

/// Reads the maps that options name, opens the files, loads the mapfile if there is one, and runs the rescue.
pub fn rescue<S: Source, D: Site, K: Clock, C: Console>(
    checked: CheckedCommand<'_>,
    outside: &mut Outside<S, D, K, C>,
) -> Result<Ended, Ending>
    requires no_draft { (D.state outside.old.site.now).is_drafting ≡ false }
    requires checked { IsChecked checked }
    ensures worked { Worked (told_by checked.entry.command) checked.entry.heading.line
        checked.entry.heard (heard_after checked.entry.heard result)
        (ending_of result) (between S.Source D.Site K.Clock C.Console outside.old outside.new) }
    ensures leaves { Leaves (ending_of result) (between S.Source D.Site K.Clock C.Console outside.old outside.new) }
    ensures same { AreSame outside.old outside.new }
{
    let command = checked.command;
    let loose = command.options.loose;
    let domain_map = read_named(
        checked.alloc,
        outside.site,
        Which::DomainMap,
        command.domain_map,
        loose,
    )?;
    let test_map = read_named(
        checked.alloc,
        outside.site,
        Which::TestMap,
        command.test_map,
        loose,
    )?;
    let maps = NamedMaps {
        domain_map,
        test_map,
    };
    open_and_run(checked, maps, outside)
}
