//! The state of a rescue under way, and its end.
ghost use Rattle.crash_site.specs.SiteChanges.{Keeps as SiteKeeps};
ghost use Rattle.rescue_console.specs.Speaking.{SpeaksOn};
ghost use Rattle.rescue_core.specs.RunState.{run_of, IsRun};
ghost use Rattle.rescue_core.specs.Closing.{Closes, MayClose, last_pieces};

use crate::closing::Closed;
use crate::keeper::Keeper;
use block_list::tiles::Tiles;
use crash_site::site::Site;
use rescue_console::console::Console;
use rescue_domain::domain::Domain;
use rescue_rules::phase::Phase;
use rescue_rules::progress::Progress;
use rescue_rules::report::Counts;
use rescue_rules::stop::Stop;
use run_options::settings::Settings;

/// A run of a rescue, whatever its phase.
// It has no model of its own, so a turn may leave it for a while as no run is between its turns. `Rescue` has one.
#[derive(Drop)]
pub(crate) struct Running<T: Tiles> {
    pub(crate) settings: Settings,
    pub(crate) domain: Domain,
    pub(crate) tiles: T,
    pub(crate) buf: Vec<u8>,
    pub(crate) phase: Phase,
    pub(crate) progress: Progress,
    pub(crate) counts: Counts,
    pub(crate) keeper: Keeper,
}

impl<T: Tiles> Running<T> {
    /// Saves the map at the run's end, or syncs the output if there is no mapfile. Then it says the last line. A run
    /// without a stop is finished.
    pub fn close<D: Site, C: Console>(
        self,
        stop: Option<Stop>,
        site: &mut D,
        console: &mut C,
    ) -> Closed
        requires run { IsRun T.Tiles self }
        requires no_draft { MayClose stop (D.state site.old) }
        ensures closes { Closes stop (run_of T.Tiles self) result.end (D.state site.old) (D.state site.new) }
        ensures says { SpeaksOn (last_pieces (run_of T.Tiles self) result.end) self.keeper.heard result.heard
            (C.state console.old) (C.state console.new) }
        ensures site { SiteKeeps (D.state site.old) (D.state site.new) }
    {
        let Running {
            settings: _,
            domain: _,
            tiles,
            buf: _,
            phase: _,
            progress: _,
            counts,
            keeper,
        } = self;
        keeper.close(stop, counts, &tiles, site, console)
    }
}
