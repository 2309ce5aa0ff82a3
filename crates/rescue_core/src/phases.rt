//! A rescue by how far it has come: each phase is a type.
ghost use Rattle.std.specs.Prelude.{◌≡◌, ◌+◌, ◌<◌, ◌≤◌, ◌^◌, true, false, Some, None, length, slice_get, IfOk, IfErr, IfSome, IfNone, OnOk};
ghost use Rattle.faulty_source.specs.SourceChanges.{Stays as SourceStays};
ghost use Rattle.crash_site.specs.SiteChanges.{Keeps as SiteKeeps};
ghost use Rattle.rescue_console.specs.ClockState.{Keeps as ClockKeeps};
ghost use Rattle.mapfile_text.specs.declared.heading.Program.TheVariants.{Ddrescue};
ghost use Rattle.block_list.specs.declared.status.Status.TheVariants.{NonTried, NonTrimmed, NonScraped};
ghost use Rattle.run_options.specs.Settings.{IsSound, Suits, HasPlaces};
ghost use Rattle.rescue_rules.specs.Passes.{numbered};
ghost use Rattle.rescue_rules.specs.Machine.{IsRequest, has_request};
ghost use Rattle.rescue_rules.specs.Moves.{ready, no_pass_left};
ghost use Rattle.rescue_rules.specs.Across.{ObjectsStay};
ghost use Rattle.rescue_core.specs.Outside.{between, IsOpen, AreSame};
ghost use Rattle.rescue_core.specs.RunState.{RunState, setting_in, started, passed, run_showing, IsGone};
ghost use Rattle.rescue_domain.specs.Parts.{covers};
ghost use Rattle.rescue_core.specs.Turning.{Turned, Halted};
ghost use Rattle.rescue_console.specs.Speaking.{SpeaksOn};
ghost use Rattle.rescue_core.specs.Closing.{Closes, MayClose, drafting_at_stop, last_pieces};
ghost use Rattle.rescue_core.specs.Stages.{Reached, Begun, Copied, Trimmed, Scraped, Over};

use crate::closing::Closed;
use crate::counts::counts_at_first;
use crate::keeper::Keeper;
use crate::outside::Outside;
use crate::progress::{first_progress, progress_at_start};
use crate::running::Running;
use crate::turn::{Advanced, Turn};
use block_list::tiles::Tiles;
use crash_site::site::Site;
use faulty_source::source::Source;
use mapfile_save::names::Names;
use mapfile_text::heading::Heading;
use mapfile_text::state::MapState;
use rescue_console::clock::Clock;
use rescue_console::console::Console;
use rescue_domain::domain::Domain;
use rescue_rules::phase::Phase;
use rescue_rules::stop::Stop;
use rescue_rules::tally::Tally;
use run_options::settings::Settings;
use std::marker::Model;
use transfer_token::token::Request;

/// How far a rescue has come: what is gone from its domain.
pub trait Stage: Drop {
    ghost reached: { Reached };
}

/// Nothing is known yet of what is gone from the domain.
#[derive(Clone, Copy, Debug)]
pub struct Copying;

/// No position of the domain is non-tried.
#[derive(Clone, Copy, Debug)]
pub struct Trimming;

/// No position of the domain is non-tried, and none is non-trimmed unless trimming is off.
#[derive(Clone, Copy, Debug)]
pub struct Scraping;

/// No position of the domain is non-tried. None is non-trimmed unless trimming is off, and none is non-scraped unless
/// scraping is off.
#[derive(Clone, Copy, Debug)]
pub struct Retrying;

/// No pass has a request left.
#[derive(Clone, Copy, Debug)]
pub struct Finished;

impl Stage for Copying {
    ghost reached = { Begun };
}

impl Stage for Trimming {
    ghost reached = { Copied };
}

impl Stage for Scraping {
    ghost reached = { Trimmed };
}

impl Stage for Retrying {
    ghost reached = { Scraped };
}

impl Stage for Finished {
    ghost reached = { Over };
}

/// A run of a rescue between its turns, by how far it has come.
#[derive(Drop)]
pub struct Rescue<P: Stage, T: Tiles> {
    stage: P,
    running: Running<T>,
}

impl<P: Stage, T: Tiles> Model for Rescue<P, T> {
    ghost use Rattle.rescue_core.specs.RunState.{RunState};

    ghost Value = { RunState };

    ghost use Rattle.rescue_core.specs.RunState.{run_of, IsRun};
    ghost use Rattle.rescue_core.specs.Stages.{Known};

    ghost view = { λ r. run_of T.Tiles r.running };

    ghost invariant = { λ r. IsRun T.Tiles r.running × Known P.reached (run_of T.Tiles r.running) };
}

impl<T: Tiles> Rescue<Copying, T> {
    /// A rescue of a domain of a map, at this moment (milliseconds since 1970): in copying's first pass, or from the
    /// position and in the pass of a state that a mapfile showed. Without a mapfile it saves nothing. It reads into a
    /// buffer for a cluster, and says lines if it is heard.
    pub fn start(
        buf: Vec<u8>,
        settings: Settings,
        domain: Domain,
        tiles: T,
        loaded: Option<MapState>,
        names: Option<Names>,
        heading: Heading,
        moment: u64,
        heard: bool,
    ) -> Rescue<Copying, T>
        requires room { length buf.items ≡ settings.cluster }
        requires sound { IsSound settings }
        requires suits { Suits settings (covers domain) (length (T.statuses tiles)) }
        requires short { length (T.statuses tiles) < 2 ^ 63 }
        requires program { heading.program ≡ Ddrescue }
        requires pos { IfSome loaded (λ state. state.pos < 2 ^ 63) }
        requires pass { IfSome loaded (λ state. 0 < state.pass) }
        ensures { result ≡ started settings domain names heading.line (T.statuses tiles) loaded moment heard }
    {
        let progress = first_progress(&settings, loaded, tiles.end());
        let counts = counts_at_first(&domain, &tiles);
        let tally = Tally::first(loaded, moment, counts.failed.areas);
        let running = Running {
            settings,
            domain,
            tiles,
            buf,
            phase: Phase::Copying,
            progress,
            counts,
            keeper: Keeper {
                names,
                heading,
                tally,
                heard,
            },
        };
        Rescue {
            stage: Copying,
            running,
        }
    }

    /// Has saved mapfiles show a state until the first event.
    pub fn show_loaded(&mut self, state: MapState)
        requires pos { state.pos < 2 ^ 63 }
        requires pass { 0 < state.pass }
        ensures { self.new ≡ run_showing self.old state }
    {
        self.running.keeper.tally.shown = state;
    }

    /// Copying is over, once no position of the domain is non-tried.
    pub fn end_copying(self) -> Rescue<Trimming, T>
        requires gone { IsGone NonTried self }
        ensures { result ≡ self }
    {
        let Rescue { stage: _, running } = self;
        Rescue {
            stage: Trimming,
            running,
        }
    }
}

impl<T: Tiles> Rescue<Trimming, T> {
    /// Trimming is over, once no position of the domain is non-trimmed, or if it is off.
    pub fn end_trimming(self) -> Rescue<Scraping, T>
        requires gone { self.settings.passes.trims ≡ true → IsGone NonTrimmed self }
        ensures { result ≡ self }
    {
        let Rescue { stage: _, running } = self;
        Rescue {
            stage: Scraping,
            running,
        }
    }
}

impl<T: Tiles> Rescue<Scraping, T> {
    /// Scraping is over, once no position of the domain is non-scraped, or if it is off.
    pub fn end_scraping(self) -> Rescue<Retrying, T>
        requires gone { self.settings.passes.scrapes ≡ true → IsGone NonScraped self }
        ensures { result ≡ self }
    {
        let Rescue { stage: _, running } = self;
        Rescue {
            stage: Retrying,
            running,
        }
    }
}

impl<T: Tiles> Rescue<Retrying, T> {
    /// The rescue is over, once no pass has a request left.
    pub fn end_retrying(self) -> Rescue<Finished, T>
        requires spent { no_pass_left (ready (setting_in self) self.machine).passes ≡ true }
        ensures { result ≡ self }
    {
        let Rescue { stage: _, running } = self;
        Rescue {
            stage: Finished,
            running,
        }
    }
}

impl<T: Tiles> Rescue<Finished, T> {
    /// Saves the map of a rescue that went on to its end, or syncs the output if there is no mapfile, and says the last
    /// line.
    pub fn close<D: Site, C: Console>(self, site: &mut D, console: &mut C) -> Closed
        requires no_draft { (D.state site.old).is_drafting ≡ false }
        ensures closes { Closes None self result.end (D.state site.old) (D.state site.new) }
        ensures site { SiteKeeps (D.state site.old) (D.state site.new) }
        ensures says { SpeaksOn (last_pieces self result.end) self.heard result.heard (C.state console.old)
            (C.state console.new) }
    {
        let Rescue { stage: _, running } = self;
        running.close(None, site, console)
    }
}

impl<P: Stage, T: Tiles> Rescue<P, T> {
    /// What the rescue was asked to do.
    pub fn settings(&self) -> &Settings
        ensures { result.now ≡ self.now.settings }
    {
        &self.running.settings
    }

    /// The positions that the rescue asks for.
    pub fn domain(&self) -> &Domain
        ensures { result.now ≡ self.now.domain }
    {
        &self.running.domain
    }

    /// The rescue's map.
    pub fn tiles(&self) -> &T
        ensures { T.statuses result.now ≡ self.now.machine.map }
    {
        &self.running.tiles
    }

    /// The number of the present pass, counted from 1 within the phase.
    pub fn pass(&self) -> u32
        ensures { result ≡ self.now.pass }
    {
        self.running.progress.pass
    }

    /// The next request of the present pass.
    #[inline(always)]
    pub fn next_request(&self) -> Option<Request>
        ensures some { IfSome result (λ q. IsRequest (setting_in self.now) self.now.machine q.pos (q.pos + q.len)) }
        ensures none { IfNone result (has_request (setting_in self.now) self.now.machine ≡ false) }
        ensures len { IfSome result (λ q. 0 < q.len) }
        ensures most { IfSome result (λ q. q.len ≤ self.now.settings.cluster) }
        ensures within { IfSome result (λ q. q.pos + q.len ≤ length self.now.machine.map) }
        ensures short { IfSome result (λ q. q.pos + q.len < 2 ^ 63) }
    {
        if self.running.leads_up() {
            self.running.next_lead()
        } else {
            self.running.find_request()
        }
    }

    /// Goes on to the next pass, after one that has no request left.
    pub fn begin_pass(&mut self, phase: Phase, pass: u32)
        requires next { slice_get self.old.machine.passes 1 ≡ Some (numbered phase pass) }
        requires spent { has_request (setting_in self.old) self.old.machine ≡ false }
        ensures { self.new ≡ passed self.old phase pass }
    {
        self.running.phase = phase;
        self.running.progress = progress_at_start(
            &self.running.settings,
            pass,
            self.running.tiles.end(),
        );
    }

    /// One turn: room in the map, a reading of the clock, the read, another reading, the write of what was kept, and
    /// the marks. The line follows, if one is due and the rescue is heard, and the save, if one is due. Without a
    /// mapfile none is. Lack of memory comes before the read; a lost read or a failed write leaves the range as it was,
    /// and says nothing; a call of the save may fail after the marks. After a put that fails it isn't heard any more.
    // Inlined in the loop of each phase, with what it calls that is marked so, or a request of one sector costs half as
    // much again (bench/turns).
    #[inline(always)]
    pub fn turn<S: Source, D: Site, K: Clock, C: Console>(
        &mut self,
        request: Request,
        outside: &mut Outside<S, D, K, C>,
    ) -> Result<Turn, Stop>
        requires request { IsRequest (setting_in self.old) self.old.machine request.pos (request.pos + request.len) }
        requires places { HasPlaces self.old.settings (covers self.old.domain) }
        requires open { IsOpen S.Source D.Site outside.old }
        requires no_draft { (D.state outside.old.site.now).is_drafting ≡ false }
        ensures turned { IfOk result (λ turn. Turned request turn self.old self.new (between S.Source D.Site K.Clock
            C.Console outside.old outside.new)) }
        ensures halted { IfErr result (λ stop. Halted request stop self.old self.new (between S.Source D.Site K.Clock
            C.Console outside.old outside.new)) }
        ensures draft { OnOk result ((D.state outside.new.site.now).is_drafting ≡ false) }
        ensures draft_left { IfErr result (λ stop. (D.state outside.new.site.now).is_drafting ≡ drafting_at_stop stop) }
        ensures objects { ObjectsStay (between S.Source D.Site K.Clock C.Console outside.old outside.new) }
        ensures same { AreSame outside.old outside.new }
    {
        let Advanced {
            turn,
            speaks,
            saves,
        } = self.running.advance(request, outside)?;
        self.running.say_due(speaks, outside.console);
        if let Some(limit) = self.running.limit() {
            return Err(Stop::LimitMet(limit));
        }
        if let Err(fault) = self.running.save_due(saves, outside.site) {
            return Err(Stop::Site(fault.call));
        }
        Ok(turn)
    }

    /// A rescue that stopped, with its stop.
    pub fn stopped(self, stop: Stop) -> Stopped<T>
        ensures run { result.run ≡ self }
        ensures stop { result.stop ≡ stop }
    {
        let Rescue { stage: _, running } = self;
        Stopped { running, stop }
    }
}

/// A rescue that stopped before its end.
#[derive(Drop)]
pub struct Stopped<T: Tiles> {
    running: Running<T>,
    stop: Stop,
}

impl<T: Tiles> Model for Stopped<T> {
    ghost use Rattle.rescue_core.specs.Closing.{StoppedState};

    ghost Value = { StoppedState };

    ghost use Rattle.rescue_core.specs.RunState.{run_of, IsRun};

    ghost view = { λ s. record { run = run_of T.Tiles s.running; stop = s.stop } };

    ghost invariant = { λ s. IsRun T.Tiles s.running };
}

impl<T: Tiles> Stopped<T> {
    /// Why the rescue stopped.
    pub fn stop(&self) -> Stop
        ensures { result ≡ self.now.stop }
    {
        self.stop
    }

    /// Saves the map as it is, or syncs the output if there is no mapfile; but makes no call if it stopped at a call on
    /// its files. Then it says the last line.
    pub fn close<D: Site, C: Console>(self, site: &mut D, console: &mut C) -> Closed
        requires no_draft { MayClose (Some self.stop) (D.state site.old) }
        ensures closes { Closes (Some self.stop) self.run result.end (D.state site.old) (D.state site.new) }
        ensures site { SiteKeeps (D.state site.old) (D.state site.new) }
        ensures says { SpeaksOn (last_pieces self.run result.end) self.run.heard result.heard (C.state console.old)
            (C.state console.new) }
    {
        let Stopped { running, stop } = self;
        running.close(Some(stop), site, console)
    }
}
