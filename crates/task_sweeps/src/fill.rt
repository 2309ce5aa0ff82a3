//! Fill mode: a pattern is written to the outfile where the mapfile has some statuses.
ghost use Rattle.std.specs.Prelude.{◌≡◌, ◌<◌, true, false, is_some, length, Option};
ghost use Rattle.block_list.specs.Tiled.{Tiled};
ghost use Rattle.ddrescue_words.specs.Options.{cluster_of};
ghost use Rattle.ddrescue_words.specs.Asking.{told_by};
ghost use Rattle.sweep_rules.specs.Sweep.{filler};
ghost use Rattle.task_files.specs.Asked.{ArePlacedBy};
ghost use Rattle.task_files.specs.Steps.{ending_of, heard_after, maps_read, Leaves, SuitsInput, IsChecked};
ghost use Rattle.task_sweeps.specs.Modes.{fill_setting};
ghost use Rattle.task_sweeps.specs.SweepSteps.{DidSweep, WorkedFill};
ghost use Rattle.rescue_core.specs.Outside.{between, AreSame};

use crate::pattern::read_pattern;
use crate::sweep::{make_job, make_sweep};
use block_list::tiles::Tiles;
use block_list::types::TypeSet;
use crash_site::site::Site;
use faulty_source::source::Source;
use fill_generate::fill::run_fill;
use option_words::fault::UsageFault;
use rescue_console::clock::Clock;
use rescue_console::console::Console;
use rescue_core::outside::Outside;
use task_files::checked::CheckedCommand;
use task_files::ending::{Ended, Ending, Which, answer};
use task_files::load::{LoadedFiles, load};
use task_files::maps::read_named;
use task_files::open::open_output;
use task_files::opening::say_line;
use task_files::places::places_fit;

/// What is written, and where.
#[derive(Clone, Copy)]
struct Filling<'a> {
    /// Positions of these statuses are written.
    types: TypeSet,
    /// A cluster of the pattern.
    buffer: &'a [u8],
}

/// Fills over the map that the mapfile stands for. All memory is taken before the clock is read; the first line is put
/// after that.
fn run<S: Source, D: Site, K: Clock, C: Console>(
    checked: CheckedCommand<'_>,
    filling: Filling<'_>,
    loaded: LoadedFiles,
    outside: &mut Outside<S, D, K, C>,
) -> Ended
    requires image { (D.state outside.old.site.now).is_open ≡ true }
    requires no_draft { (D.state outside.old.site.now).is_drafting ≡ false }
    requires checked { IsChecked checked }
    requires named { is_some (told_by checked.command).mapfile ≡ true }
    requires room { length filling.buffer.now ≡ cluster_of (told_by checked.command).options }
    requires placed { ArePlacedBy (told_by checked.command).options loaded.end }
    requires fits { SuitsInput 0 loaded.map.tiles.statuses loaded.map.state }
    requires top { loaded.end ≡ length loaded.map.tiles.statuses }
    ensures ran { (test : Option Tiled) →
        let c = told_by checked.entry.command in
        let maps = maps_read c.options loaded.domain_map test loaded.map in
        let s = fill_setting c checked.entry.heading.line loaded.end maps in
        DidSweep s (filler s filling.entry.types filling.entry.buffer.now) loaded.map.tiles.statuses loaded.map.state
        checked.entry.heard result.heard result.ending
        (between S.Source D.Site K.Clock C.Console outside.old outside.new) }
    ensures leaves { Leaves result.ending (between S.Source D.Site K.Clock C.Console outside.old outside.new) }
    ensures same { AreSame outside.old outside.new }
{
    let CheckedCommand {
        command,
        names,
        heading,
        heard,
        alloc,
    } = checked;
    let Some(names) = names else { unreachable!() };
    let Ok(ready) = make_sweep(alloc, command, loaded) else {
        let ending = Ending::NoMemory;
        return Ended { ending, heard };
    };
    let moment = outside.clock.now_ms();
    let heard = say_line(outside.console, &ready.opening, heard);
    let job = make_job(ready, command, names, heading, moment, heard);
    let closed = run_fill(
        job,
        filling.types,
        filling.buffer,
        outside.site,
        outside.clock,
        outside.console,
    );
    Ended {
        ending: answer(closed.end),
        heard: closed.heard,
    }
}

/// Reads the map that an option names and the pattern, opens the outfile, loads the mapfile, and fills.
pub fn fill<S: Source, D: Site, K: Clock, C: Console>(
    checked: CheckedCommand<'_>,
    types: TypeSet,
    outside: &mut Outside<S, D, K, C>,
) -> Result<Ended, Ending>
    requires no_draft { (D.state outside.old.site.now).is_drafting ≡ false }
    requires checked { IsChecked checked }
    requires named { is_some (told_by checked.command).mapfile ≡ true }
    ensures worked { WorkedFill types (told_by checked.entry.command) checked.entry.heading.line
        checked.entry.heard (heard_after checked.entry.heard result)
        (ending_of result) (between S.Source D.Site K.Clock C.Console outside.old outside.new) }
    ensures leaves { Leaves (ending_of result) (between S.Source D.Site K.Clock C.Console outside.old outside.new) }
    ensures same { AreSame outside.old outside.new }
{
    let command = checked.command;
    let loose = command.options.loose;
    let domain_map = read_named(
        checked.alloc,
        outside.site,
        Which::DomainMap,
        command.domain_map,
        loose,
    )?;
    let Ok(end) = outside.source.open_input(command.infile) else {
        return Err(Ending::SourceFault);
    };
    let cluster = command.options.cluster();
    let buffer = read_pattern(checked.alloc, outside.source, end, cluster)?;
    open_output(outside.site, command.outfile, true, command.options.forced)?;
    let map = load(checked.alloc, outside.site, &checked.names, 0)?;
    let top = map.tiles.end();
    if !places_fit(&command.options, top) {
        return Err(Ending::Usage(UsageFault::PlaceTooLarge));
    }
    let filling = Filling {
        types,
        buffer: &buffer,
    };
    let loaded = LoadedFiles {
        domain_map,
        map,
        end: top,
    };
    Ok(run(checked, filling, loaded, outside))
}
