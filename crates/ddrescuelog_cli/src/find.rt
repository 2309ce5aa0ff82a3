//! What a mode that reads finds in maps, and prints of them.
ghost use Rattle.std.specs.Prelude.{◌≡◌, ℕ, true, false, length};
ghost use Rattle.rescue_domain.specs.Parts.{covers};
ghost use Rattle.rescue_domain.specs.Domain.{whole_domain};
ghost use Rattle.map_counts.specs.At.{IsWithinMap};
ghost use Rattle.ddrescuelog_words.specs.Modes.{creates, has_other, removes_map};
ghost use Rattle.ddrescuelog_words.specs.Command.{AreInLimits, told_by};
ghost use Rattle.ddrescuelog_cli.specs.Maps.{Maps};
ghost use Rattle.ddrescuelog_cli.specs.Steps.{IsLoadedAs, HasFound, answer_if};

use crate::ending::LogEnding;
use crate::list::list_blocks;
use crate::load::LoadedMaps;
use crate::pieces::{printed, put_rest};
use crate::print::print_map;
use crate::summary::make_summary;
use console_texts::printing::put_map;
use ddrescuelog_words::command::Command;
use ddrescuelog_words::mode::LogMode;
use map_algebra::change::change_types;
use map_algebra::combine::combine;
use map_algebra::compare::{is_done, same, same_finished};
use map_counts::summary::Summary;
use mapfile_text::heading::Heading;
use rescue_console::console::Console;
use std::alloc::Global;

/// The answer of a mode that finds what is asked, or doesn't.
fn found(is: bool, otherwise: LogEnding) -> LogEnding
    ensures { result ≡ answer_if is otherwise }
{
    if is { LogEnding::Done } else { otherwise }
}

/// Does what a mode does that changes no file, over the maps that it reads.
pub(crate) fn find<P: Console>(
    alloc: Global,
    command: &Command,
    heading: &Heading,
    loaded: &LoadedMaps,
    console: &mut P,
) -> LogEnding
    requires limits { AreInLimits (told_by command.now) }
    requires reads { creates (told_by command.now).mode ≡ false }
    requires keeps { removes_map (told_by command.now).mode ≡ false }
    requires within { has_other (told_by command.now).mode ≡ false
        → IsWithinMap (covers loaded.now.domain) loaded.now.tiles.statuses }
    requires inside { has_other (told_by command.now).mode ≡ false → (x : ℕ) → covers loaded.now.domain x ≡ true
        → whole_domain command.now.options.input_position command.now.options.size (length loaded.now.tiles.statuses) x
        ≡ true }
    ensures { (m : Maps) → IsLoadedAs (told_by command.now) m loaded.now
        → HasFound (told_by command.now) heading.now m result (P.state console.old) (P.state console.new) }
{
    let LoadedMaps {
        state,
        tiles,
        other,
        domain,
    } = loaded;
    match command.mode {
        LogMode::Change(change) => {
            let made = change_types(alloc, tiles, domain, &change);
            print_map(console, heading, *state, made)
        }
        LogMode::Combine(op) => {
            let made = combine(alloc, op, tiles, other, domain);
            print_map(console, heading, *state, made)
        }
        LogMode::Complete(_) => printed(put_map(console, heading, *state, tiles)),
        LogMode::ListBlocks(types) => list_blocks(&command.options, types, loaded, console),
        LogMode::Test { .. } => found(is_done(tiles, domain), LogEnding::NotDone),
        LogMode::Compare { finished: false } => {
            found(same(tiles, other, domain), LogEnding::Differ)
        }
        LogMode::Compare { finished: true } => {
            found(same_finished(tiles, other, domain), LogEnding::Differ)
        }
        LogMode::Summarize => {
            let summary = Summary::of(tiles, domain);
            printed(put_rest(console, &make_summary(*state, &summary)))
        }
        LogMode::Create { .. } => unreachable!(),
    }
}
