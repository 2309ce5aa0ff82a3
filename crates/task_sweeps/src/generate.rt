//! Generate mode: a mapfile is made of what the outfile holds.
ghost use Rattle.std.specs.Prelude.{◌≡◌, ◌<◌, ◌^◌, true, false, is_some, Option};
ghost use Rattle.block_list.specs.Tiled.{Tiled};
ghost use Rattle.rescue_core.specs.Outside.{between, AreSame};
ghost use Rattle.ddrescue_words.specs.Asking.{told_by};
ghost use Rattle.task_files.specs.Asked.{setting_of};
ghost use Rattle.task_files.specs.Steps.{ending_of, heard_after, maps_read, Leaves, CanBegin, IsChecked};
ghost use Rattle.task_sweeps.specs.SweepSteps.{DidGenerate, WorkedGenerate};

use crate::sweep::{make_job, make_sweep};
use crash_site::site::Site;
use faulty_source::source::Source;
use fill_generate::generate::run_generate;
use option_words::fault::UsageFault;
use rescue_console::clock::Clock;
use rescue_console::console::Console;
use rescue_core::outside::Outside;
use task_files::checked::CheckedCommand;
use task_files::ending::{Ended, Ending, Which, answer};
use task_files::load::{LoadedFiles, load};
use task_files::maps::read_named;
use task_files::open::open_output;
use task_files::opening::say_line;
use task_files::places::places_fit;

/// Looks up in the outfile what the map that the mapfile stands for calls non-tried. All memory except that for marks
/// is taken before the clock is read; the first line is put after that.
fn run<S: Source, D: Site, K: Clock, C: Console>(
    checked: CheckedCommand<'_>,
    loaded: LoadedFiles,
    outside: &mut Outside<S, D, K, C>,
) -> Ended
    requires image { (D.state outside.old.site.now).is_open ≡ true }
    requires no_draft { (D.state outside.old.site.now).is_drafting ≡ false }
    requires checked { IsChecked checked }
    requires named { is_some (told_by checked.command).mapfile ≡ true }
    requires begins { CanBegin (told_by checked.command).options loaded.end loaded.map.tiles.statuses loaded.map.state }
    ensures ran { (test : Option Tiled) →
        let c = told_by checked.entry.command in
        let maps = maps_read c.options loaded.domain_map test loaded.map in
        let s = setting_of c checked.entry.heading.line loaded.end maps in
        DidGenerate s loaded.map.tiles.statuses loaded.map.state checked.entry.heard result.heard result.ending
        (between S.Source D.Site K.Clock C.Console outside.old outside.new) }
    ensures leaves { Leaves result.ending (between S.Source D.Site K.Clock C.Console outside.old outside.new) }
    ensures same { AreSame outside.old outside.new }
{
    let CheckedCommand {
        command,
        names,
        heading,
        heard,
        alloc,
    } = checked;
    let Some(names) = names else { unreachable!() };
    let Ok(ready) = make_sweep(alloc, command, loaded) else {
        let ending = Ending::NoMemory;
        return Ended { ending, heard };
    };
    let Ok(mut buffer) = vec![in alloc; 0; command.options.cluster() as usize] else {
        let ending = Ending::NoMemory;
        return Ended { ending, heard };
    };
    let moment = outside.clock.now_ms();
    let heard = say_line(outside.console, &ready.opening, heard);
    let job = make_job(ready, command, names, heading, moment, heard);
    let closed = run_generate(
        job,
        &mut buffer,
        outside.site,
        outside.clock,
        outside.console,
    );
    Ended {
        ending: answer(closed.end),
        heard: closed.heard,
    }
}

/// Reads the map that an option names, opens the infile for its length and the outfile, which has to be there, loads
/// the mapfile, and looks up what the outfile holds.
pub fn generate<S: Source, D: Site, K: Clock, C: Console>(
    checked: CheckedCommand<'_>,
    outside: &mut Outside<S, D, K, C>,
) -> Result<Ended, Ending>
    requires no_draft { (D.state outside.old.site.now).is_drafting ≡ false }
    requires checked { IsChecked checked }
    requires named { is_some (told_by checked.command).mapfile ≡ true }
    ensures worked { WorkedGenerate (told_by checked.entry.command) checked.entry.heading.line
        checked.entry.heard (heard_after checked.entry.heard result)
        (ending_of result) (between S.Source D.Site K.Clock C.Console outside.old outside.new) }
    ensures leaves { Leaves (ending_of result) (between S.Source D.Site K.Clock C.Console outside.old outside.new) }
    ensures same { AreSame outside.old outside.new }
{
    let command = checked.command;
    let loose = command.options.loose;
    let domain_map = read_named(
        checked.alloc,
        outside.site,
        Which::DomainMap,
        command.domain_map,
        loose,
    )?;
    let Ok(end) = outside.source.open_input(command.infile) else {
        return Err(Ending::SourceFault);
    };
    open_output(outside.site, command.outfile, false, command.options.forced)?;
    let map = load(checked.alloc, outside.site, &checked.names, end)?;
    if !places_fit(&command.options, end) {
        return Err(Ending::Usage(UsageFault::PlaceTooLarge));
    }
    let loaded = LoadedFiles {
        domain_map,
        map,
        end,
    };
    Ok(run(checked, loaded, outside))
}
