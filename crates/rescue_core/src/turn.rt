//! The parts of a turn of a rescue, and what it did.
ghost use Rattle.std.specs.Prelude.{◌≡◌, true, false, not, ◌||◌, [], ◌∷◌, if◌then◌else◌, IfOk, IfErr};
ghost use Rattle.run_options.specs.Settings.{HasPlaces};
ghost use Rattle.rescue_console.specs.Speaking.{SpeaksOn, out_pieces};
ghost use Rattle.mapfile_save.specs.Saving.{Saves as SavesMap};
ghost use Rattle.rescue_domain.specs.Parts.{covers};
ghost use Rattle.rescue_rules.specs.Snapshots.{snapshot_of};
ghost use Rattle.rescue_rules.specs.Lines.{phase_front, report_of, report_text};
ghost use Rattle.rescue_core.specs.Keeping.{saves_of};
ghost use Rattle.rescue_core.specs.Outside.{between, IsOpen, AreSame, SilentlyStay};
ghost use Rattle.rescue_core.specs.RunState.{setting_in, run_of, IsRun, IsNext};
ghost use Rattle.rescue_core.specs.Turning.{Halted};
ghost use Rattle.rescue_core.specs.TurnParts.{Advances};
ghost use Rattle.rescue_core.specs.Closing.{drafting_at_stop};

use crate::outside::Outside;
use crate::running::Running;
use block_list::tiles::Tiles;
use crash_site::site::Site;
use faulty_source::source::Source;
use mapfile_save::draft::SaveFault;
use rescue_console::clock::Clock;
use rescue_console::console::Console;
use rescue_rules::stop::Stop;
use transfer_token::token::Request;

/// How many blocks the marks of a turn may add to the map.
const MOST_NEW_BLOCKS: usize = 6;

/// What a turn did.
#[derive(Clone, Copy, Debug, PartialEq, Eq)]
pub struct Turn {
    /// How many bytes were kept, and how many were given.
    pub kept: u64,
    pub given: u64,
    /// Whether all was given that was asked for.
    pub whole: bool,
    /// Whether the read was whole, and slow.
    pub slow: bool,
    /// Whether the input ended after what was given, which is then no failure.
    pub ended: bool,
}

/// What a turn answers once its marks are made, and what is due then.
pub(crate) struct Advanced {
    pub turn: Turn,
    /// Whether a line is due, and whether it is time for a save.
    pub speaks: bool,
    pub saves: bool,
}

/// A read that was made: what it asked for, and what came of it.
#[derive(Clone, Copy)]
pub(crate) struct Read {
    pub request: Request,
    pub turn: Turn,
}

impl Turn {
    /// Whether the read failed: it gave less than was asked for, and not since the input ended.
    pub(crate) fn failed(&self) -> bool
        ensures { result ≡ not (self.now.whole || self.now.ended) }
    {
        !self.whole && !self.ended
    }

    /// Whether the read was whole and not slow, and the input didn't end after it.
    pub(crate) fn is_plain(&self) -> bool
        ensures whole { result ≡ true → self.now.whole ≡ true }
        ensures slow { result ≡ true → self.now.slow ≡ false }
        ensures ended { result ≡ true → self.now.ended ≡ false }
    {
        self.whole && !self.slow && !self.ended
    }
}

impl<T: Tiles> Running<T> {
    /// The part of a turn up to its marks, and what is due after them.
    #[inline(always)]
    pub(crate) fn advance<S: Source, D: Site, K: Clock, C: Console>(
        &mut self,
        request: Request,
        outside: &mut Outside<S, D, K, C>,
    ) -> Result<Advanced, Stop>
        requires run { IsRun T.Tiles self.old }
        requires request { IsNext (run_of T.Tiles self.old) request }
        requires places { HasPlaces self.old.settings (covers self.old.domain) }
        requires open { IsOpen S.Source D.Site outside.old }
        ensures advanced { IfOk result (λ got. Advances request got (run_of T.Tiles self.old) (run_of T.Tiles self.new)
            (between S.Source D.Site K.Clock C.Console outside.old outside.new)) }
        ensures halted { IfErr result (λ stop. Halted request stop (run_of T.Tiles self.old) (run_of T.Tiles self.new)
            (between S.Source D.Site K.Clock C.Console outside.old outside.new)) }
        ensures draft { IfErr result (λ stop. drafting_at_stop stop ≡ false) }
        ensures run { IsRun T.Tiles self.new }
        ensures stays { SilentlyStay (between S.Source D.Site K.Clock C.Console outside.old outside.new) }
        ensures same { AreSame outside.old outside.new }
    {
        if self.tiles.reserve(MOST_NEW_BLOCKS).is_err() {
            return Err(Stop::NoMemory);
        }
        let gathered = self.gather(request, outside)?;
        Ok(self.go_on_by_kind(request, gathered))
    }

    /// Saves the map if it is time for that and there is a mapfile.
    pub(crate) fn save_due<D: Site>(&mut self, due: bool, site: &mut D) -> Result<(), SaveFault>
        requires run { IsRun T.Tiles self.old }
        requires no_draft { (D.state site.old).is_drafting ≡ false }
        ensures stands { run_of T.Tiles self.new ≡ run_of T.Tiles self.old }
        ensures run { IsRun T.Tiles self.new }
        ensures call { SavesMap (if due then saves_of self.old.keeper (snapshot_of (run_of T.Tiles self.old).machine)
            else []) false result (D.state site.old) (D.state site.new) }
    {
        if due {
            self.keeper.save(&self.tiles, site)
        } else {
            Ok(())
        }
    }

    /// Says the line after an event, if one is due. A console that fails isn't told any further.
    pub(crate) fn say_due<C: Console>(&mut self, due: bool, console: &mut C)
        requires { IsRun T.Tiles self.old }
        ensures stands { run_of T.Tiles self.new ≡ record (run_of T.Tiles self.old) { heard = self.new.keeper.heard } }
        ensures run { IsRun T.Tiles self.new }
        ensures says { SpeaksOn (out_pieces (if due then report_text (phase_front self.old.keeper.tally.shown)
            (report_of (setting_in (run_of T.Tiles self.old)) (run_of T.Tiles self.old).machine) ∷ [] else []))
            self.old.keeper.heard self.new.keeper.heard (C.state console.old) (C.state console.new) }
    {
        if due {
            self.keeper.say_phase(self.counts, console);
        }
    }
}
