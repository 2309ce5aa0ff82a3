//! What a plan begins with.
ghost use Rattle.std.specs.Prelude.{◌≡◌, ◌<◌, ◌^◌, IfOk};
ghost use Rattle.ddrescueplan_words.specs.Command.{AreInLimits, told_by};
ghost use Rattle.rescue_plan.specs.Running.{BeginsPlannedRun, untried_map};

use block_list::tiles::{NoMemory, Tiles};
use ddrescueplan_words::command::Command;
use map_preparation::prepare::prepare;
use mapfile_text::heading::{Heading, Program};
use paged_blocks::paged_tiles::PagedTiles;
use plain_blocks::plain_tiles::PlainTiles;
use rescue_core::phases::{Copying, Rescue};
use rescue_domain::domain::Domain;
use std::alloc::Global;
use task_files::load::RunMap;
use task_files::settings::settings_for;

/// The map of an input that wasn't tried.
fn blank_map(alloc: Global, length: u64) -> Result<RunMap, NoMemory>
    requires { length < 2 ^ 63 }
    ensures { IfOk result (λ t. t.statuses ≡ untried_map length) }
{
    let mut tiles = PlainTiles::new(alloc);
    tiles.reserve(1)?;
    tiles.extend_to(length);
    PagedTiles::from_plain(alloc, &tiles)
}

/// The rescue that a command asks for, at its start, with all that it wants memory for but its journal. It says
/// nothing, has no mapfile, and begins at the time 0.
pub fn make_rescue(
    alloc: Global,
    command: &Command<'_>,
) -> Result<Rescue<Copying, RunMap>, NoMemory>
    requires { AreInLimits (told_by command.now) }
    ensures { IfOk result (λ r. BeginsPlannedRun (told_by command.now) r) }
{
    let options = command.options.rescue;
    let heading = Heading::new(alloc, Program::Ddrescue, "")?;
    let domain = Domain::whole(alloc, options.input_position, options.size, command.length)?;
    let mut tiles = blank_map(alloc, command.length)?;
    prepare(&mut tiles, &domain, options.try_again, options.retrim)?;
    let buf = vec![in alloc; 0; options.cluster() as usize]?;
    let settings = settings_for(&options);
    Ok(Rescue::start(buf, settings, domain, tiles, None, None, heading, 0, false))
}
