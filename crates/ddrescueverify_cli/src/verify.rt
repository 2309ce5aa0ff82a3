//! `ddrescueverify`: the top call.
ghost use Rattle.std.specs.Prelude.{◌≡◌, ◌<◌, ◌≤◌, ◌^◌, true, false, length, OnOk, IfOk, IfErr, Ok};
ghost use Rattle.option_words.specs.declared.fault.UsageFault.{UsageFault as Fault};
ghost use Rattle.faulty_source.specs.SourceChanges.{Keeps as SourceKeeps, Stays as SourceStays};
ghost use Rattle.crash_site.specs.SiteChanges.{Keeps as SiteKeeps, Stays as SiteStays};
ghost use Rattle.rescue_console.specs.ConsoleState.{ConsoleState};
ghost use Rattle.rescue_verify.specs.Across.{across};
ghost use Rattle.rescue_verify.specs.Comparing.{Compares};
ghost use Rattle.ddrescueverify_words.specs.Command.{AreInLimits, AreRefused, told_by};
ghost use Rattle.program_promise.specs.World.{told};
ghost use Rattle.program_promise.specs.declared.operand.Operand.{Operand};
ghost use Rattle.ddrescueverify_cli.specs.declared.ending.VerifyEnding.{VerifyEnding as Answer};
ghost use Rattle.ddrescueverify_cli.specs.Asked.{IsBeyond, comparison_of};
ghost use Rattle.ddrescueverify_cli.specs.Counting.{WorkCause, drafting_after};
ghost use Rattle.ddrescueverify_cli.specs.Ddrescueverify.{Ddrescueverify, VerifyDone, handed};
ghost use Rattle.ddrescueverify_cli.specs.Refusals.{NameOneFileTwice};
ghost use Rattle.ddrescueverify_cli.specs.Reporting.{AnswersAs};
ghost use Rattle.ddrescueverify_cli.specs.Steps.{IsChecked, StopsComparing, WentOn};
ghost use Rattle.ddrescueverify_cli.specs.Work.{answer_of_halt};

use crate::checked::{CheckedCommand, check_command};
use crate::ending::VerifyEnding;
use crate::open::{LoadedMap, load, open_output};
use crate::out::answer;
use crate::save::save_map;
use crash_site::site::{Site, SiteCall};
use ddrescueverify_words::command::read_command;
use ddrescueverify_words::options::VerifyOptions;
use faulty_source::source::Source;
use option_words::command_error::CommandError;
use option_words::fault::UsageFault;
use option_words::words::Words;
use program_promise::answer::say_ending;
use rescue_console::console::Console;
use rescue_domain::domain::Domain;
use rescue_domain::places::places_fit;
use rescue_verify::compare::compare;
use rescue_verify::halt::Halt;
use rescue_verify::piece::Comparison;
use rescue_verify::tally::Tally;
use std::alloc::Global;

/// The answer of a comparison that stopped.
fn answer_of_halt(halt: Halt) -> VerifyEnding
    ensures { result ≡ answer_of_halt halt }
{
    match halt {
        Halt::NoMemory => VerifyEnding::NoMemory,
        Halt::SourceLost => VerifyEnding::SourceLost,
        Halt::ImageFault => VerifyEnding::SiteFault {
            call: SiteCall::ImageRead,
        },
    }
}

/// Compares what the loaded map calls finished of an input with this length, and marks in it what differs.
fn compare_loaded<S: Source, D: Site>(
    alloc: Global,
    options: &VerifyOptions,
    end: u64,
    loaded: &mut LoadedMap,
    source: &mut S,
    site: &mut D,
) -> Result<Tally, VerifyEnding>
    requires limits { AreInLimits options.now }
    requires end { end < 2 ^ 63 }
    requires long { end ≤ length loaded.old.tiles.statuses }
    requires input { (S.state source.old).is_open ≡ true }
    requires image { (D.state site.old).is_open ≡ true }
    ensures compares { IfOk result (λ tally. Compares (comparison_of options.now end loaded.old.tiles.statuses)
        loaded.old.tiles.statuses loaded.new.tiles.statuses (Ok tally) (across (S.state source.old) (S.state source.new)
        (D.state site.old) (D.state site.new))) }
    ensures stops { IfErr result (λ e. StopsComparing options.now end loaded.old.tiles.statuses
        loaded.new.tiles.statuses e (across (S.state source.old) (S.state source.new) (D.state site.old)
        (D.state site.new))) }
    ensures placed { OnOk result (IsBeyond options.now end → ⊥) }
    ensures cause { WorkCause result (S.state source.old) (S.state source.new) (D.state site.old) (D.state site.new) }
    ensures state { loaded.new.state ≡ loaded.old.state }
    ensures source { SourceStays (S.state source.old) (S.state source.new) }
    ensures site { SiteStays (D.state site.old) (D.state site.new) }
{
    let from = options.input_position;
    let to = options.output_position.unwrap_or(from);
    if !places_fit(from, options.size, to, end) {
        return Err(VerifyEnding::Usage(UsageFault::PlaceTooLarge));
    }
    let compared = Domain::within(alloc, from, options.size, end, Some(&loaded.tiles))?;
    let comparison = Comparison {
        compared: &compared,
        sector: options.sector,
        from,
        to,
    };
    match compare(alloc, comparison, &mut loaded.tiles, source, site) {
        Ok(tally) => Ok(tally),
        Err(halt) => Err(answer_of_halt(halt)),
    }
}

/// Opens the files, loads the mapfile, compares, and saves the map. Answers what was counted.
fn verify<S: Source, D: Site>(
    alloc: Global,
    checked: &CheckedCommand<'_>,
    source: &mut S,
    site: &mut D,
) -> Result<Tally, VerifyEnding>
    requires no_draft { (D.state site.old).is_drafting ≡ false }
    requires checked { IsChecked checked.now }
    ensures went { WentOn (told_by checked.now.command) checked.now.heading.line result (across (S.state source.old)
        (S.state source.new) (D.state site.old) (D.state site.new)) }
    ensures cause { WorkCause result (S.state source.old) (S.state source.new) (D.state site.old) (D.state site.new) }
    ensures draft { (D.state site.new).is_drafting ≡ drafting_after result }
    ensures source { SourceKeeps (S.state source.old) (S.state source.new) }
    ensures site { SiteKeeps (D.state site.old) (D.state site.new) }
{
    let command = checked.command;
    let Ok(end) = source.open_input(command.infile) else {
        return Err(VerifyEnding::SourceFault);
    };
    open_output(site, command.outfile)?;
    let mut loaded = load(alloc, site, &checked.names, end)?;
    let tally = compare_loaded(alloc, &command.options, end, &mut loaded, source, site)?;
    let LoadedMap { tiles, state } = loaded;
    save_map(site, &checked.names, &checked.heading, state, &tiles, tally)?;
    Ok(tally)
}

/// Does what the words ask for: looks at the names, and compares. Says what that came to, and whether nothing is to be
/// said of it.
fn work<S: Source, D: Site>(
    alloc: Global,
    words: &Words,
    source: &mut S,
    site: &mut D,
) -> (Result<Tally, VerifyEnding>, bool)
    requires { (D.state site.old).is_drafting ≡ false }
    ensures done { (answer : Answer) (before after : ConsoleState) → AnswersAs result.1 result.0 answer before after
        → VerifyDone words.now answer result.1 (handed (S.state source.old) (D.state site.old) before)
        (handed (S.state source.new) (D.state site.new) after) }
    ensures untouched { (fault : Fault) → AreRefused words.now fault
        → (source.new ≡ source.old) × (site.new ≡ site.old) }
    ensures unopened { (first second : Operand) → NameOneFileTwice words.now first second
        → (source.new ≡ source.old) × (site.new ≡ site.old) }
{
    let command = match read_command(alloc, words) {
        Ok(command) => command,
        Err(CommandError::NoMemory) => return (Err(VerifyEnding::NoMemory), false),
        Err(CommandError::Usage { fault, quiet }) => return (
            Err(VerifyEnding::Usage(fault)),
            quiet,
        ),
    };
    let quiet = command.options.quiet;
    match check_command(alloc, words, command) {
        Ok(checked) => (verify(alloc, &checked, source, site), quiet),
        Err(refusal) => (Err(refusal), quiet),
    }
}

/// Compares what a mapfile calls finished with the infile, once more: `[options] infile outfile mapfile`, with the
/// options of `ddrescueverify_words::options`. Each piece, which is a sector or what of one is finished, is read of the
/// infile once, and if that gave all of it the outfile is read at the piece's place. A piece that the outfile hasn't so
/// becomes non-tried in the mapfile, so that the next rescue copies it again. A piece that the infile doesn't give any
/// more stays finished. The outfile is never written; before the mapfile is read, both are made durable as they read.
///
/// Unless it is quiet, one line on the console says how much was compared. Unless the answer is `Done` or `Differs`,
/// one message says why, on the console's second channel.
///
/// The refusals come in this order: words that ask for nothing, two files with the same name, an infile that can't be
/// opened, and an outfile that isn't there. Then come a mapfile that isn't there, says nothing or is no map, and a
/// position without a place in the output. At any time the infile may be lost, a call on the files may fail, and memory
/// may run out; then nothing is saved.
pub fn ddrescueverify<S: Source, D: Site, P: Console>(
    alloc: Global,
    words: &Words,
    source: &mut S,
    site: &mut D,
    console: &mut P,
) -> VerifyEnding
    requires { (D.state site.old).is_drafting ≡ false }
    ensures promise { Ddrescueverify (told words.now result (handed (S.state source.old) (D.state site.old)
        (P.state console.old)) (handed (S.state source.new) (D.state site.new) (P.state console.new))) }

    // Words that are refused touch nothing but standard error,
    ensures untouched { (fault : Fault) → AreRefused words.now fault
        → (source.new ≡ source.old) × (site.new ≡ site.old) }

    // nor do those that name two files with the same name.
    ensures unopened { (first second : Operand) → NameOneFileTwice words.now first second
        → (source.new ≡ source.old) × (site.new ≡ site.old) }
{
    let (came, quiet) = work(alloc, words, source, site);
    let ending = answer(came, quiet, console);
    say_ending(console, ending, quiet);
    ending
}
