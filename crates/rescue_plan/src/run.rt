//! The run of a plan: a rescue that says its reads, and writes nothing.
ghost use Rattle.std.specs.Prelude.{◌≡◌, IsTrue};
ghost use Rattle.ddrescueplan_words.specs.Command.{Command, AreInLimits};
ghost use Rattle.rescue_plan.specs.Running.{BeginsPlannedRun, IsBegun, PutsPlan, end_by};

use block_list::tiles::Tiles;
use crash_site::site::Site;
use plan_source::loss::PlanLoss;
use plan_source::source::{Origin, PlanSource};
use rescue_console::console::Console;
use rescue_core::phases::{Copying, Rescue};
use rescue_rules::stop::RunEnd;
use rescue_sample::blank::{BlankConsole, BlankSite};
use rescue_sample::clock::StillClock;
use std::alloc::Global;
use task_files::load::RunMap;
use task_rescue::run::run_rescue;

/// How the putting of a plan ended.
#[derive(Clone, Copy, Debug)]
pub enum PlanEnd {
    /// The whole plan was put.
    Whole,
    /// The plan was put up to a read that is lost.
    Lost(PlanLoss),
}

/// How a plan ended, by why reads after its run are lost, if they are, and by how the run ended.
fn end_of(lost: Option<PlanLoss>, end: RunEnd) -> PlanEnd
    ensures { result ≡ end_by lost end }
{
    match (lost, end) {
        (Some(loss), _) => PlanEnd::Lost(loss),
        (None, RunEnd::Done) => PlanEnd::Whole,
        _ => PlanEnd::Lost(PlanLoss::Memory),
    }
}

/// Makes the run of a rescue over an input of a length, of which that much can be read which is finished in a map, and
/// says each read.
pub fn put_plan<C: Console, T: Tiles, O: Origin>(
    alloc: Global,
    rescue: Rescue<Copying, RunMap>,
    length: u64,
    tiles: T,
    console: &mut C,
) -> PlanEnd
    requires begun { IsBegun length rescue }
    requires known { IsTrue O.is_known }
    requires start { O.start ≡ C.state console.old }
    ensures puts { (c : Command) → AreInLimits c → c.length ≡ length → BeginsPlannedRun c rescue
        → PutsPlan c (T.statuses tiles) result (C.state console.old) (C.state console.new) }
{
    let mut source = PlanSource::<C, T, O>::since(alloc, length, tiles, console);
    let mut site = BlankSite::new();
    let Ok(_regular) = site.image_open("", true) else {
        unreachable!()
    };
    let mut clock = StillClock::new();
    let mut quiet = BlankConsole;
    let closed = run_rescue(rescue, &mut source, &mut site, &mut clock, &mut quiet);
    let lost = source.lost();
    // The console is the caller's again.
    let _console = source.into_console();
    end_of(lost, closed.end)
}
