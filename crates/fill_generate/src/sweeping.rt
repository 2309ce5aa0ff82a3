//! A sweep between its pieces, and what each piece changes of it.
ghost use Rattle.std.specs.Prelude.{◌≡◌, ◌+◌, ◌/◌, ◌<◌, ◌^◌, true, false, nat_le, [], ◌∷◌, Some, None, length, if◌then◌else◌, IfErr, IfSome, IfNone, OnOk};
ghost use Rattle.crash_site.specs.SiteChanges.{Keeps as SiteKeeps, Stays as SiteStays};
ghost use Rattle.rescue_console.specs.ClockState.{Keeps as ClockKeeps};
ghost use Rattle.rescue_console.specs.Speaking.{SpeaksOn, out_pieces};
ghost use Rattle.mapfile_text.specs.declared.heading.Program.TheVariants.{Ddrescue};
ghost use Rattle.mapfile_save.specs.Saving.{save_calls, Saves};
ghost use Rattle.rescue_rules.specs.Setting.{place};
ghost use Rattle.rescue_rules.specs.Said.{is_line_due};
ghost use Rattle.rescue_rules.specs.Step.{save_interval};
ghost use Rattle.rescue_rules.specs.Snapshots.{text_of};
ghost use Rattle.rescue_rules.specs.Lines.{phase_front, last_front, report_text, is_done};
ghost use Rattle.rescue_core.specs.Closing.{MayClose, drafting_at_stop};
ghost use Rattle.sweep_rules.specs.Sweep.{Sweeper, sweep_over, sweep_from, sweep_snapshot, IsSweptOut};
ghost use Rattle.sweep_rules.specs.SweepWork.{sweep_report};
ghost use Rattle.rescue_core.specs.Outside.{between, AreSame};
ghost use Rattle.fill_generate.specs.Sweeping.{no_input};
ghost use Rattle.fill_generate.specs.Modes.{current_in, IsSweeperOf};
ghost use Rattle.fill_generate.specs.SweepState.{CanSweep, setting_of, standing, moved};
ghost use Rattle.fill_generate.specs.Steps.{IsFound, ClosesFiles, EndsPiece, LooksUp, LooksNot};

use crate::job::Job;
use crate::mark::{mark_held, room_for};
use crate::mode::SweepMode;
use crate::search::{first_taken, taken_to};
use block_list::tiles::Tiles;
use crash_site::site::{Site, SiteCall};
use mapfile_save::draft::SaveFault;
use mapfile_text::state::{Current, MapState};
use rescue_console::clock::Clock;
use rescue_console::console::Console;
use rescue_core::closing::Closed;
use rescue_core::counts::counts_at_first;
use rescue_core::due::Due;
use rescue_core::keeper::Keeper;
use rescue_core::outside::Outside;
use rescue_domain::domain::Domain;
use rescue_rules::stop::Stop;
use rescue_rules::tally::Tally;
use run_options::settings::Settings;
use std::marker::Model;

/// A piece of a map: a position, and how many bytes from there on.
#[derive(Clone, Copy, Debug, PartialEq, Eq)]
pub(crate) struct Piece {
    pub pos: u64,
    pub len: usize,
}

/// A sweep between its pieces.
#[derive(Drop)]
pub(crate) struct Sweeping<T: Tiles> {
    settings: Settings,
    domain: Domain,
    pub tiles: T,
    mode: SweepMode,
    cursor: u64,
    keeper: Keeper,
}

impl<T: Tiles> Model for Sweeping<T> {
    ghost use Rattle.std.specs.Prelude.{◌≡◌, true, is_some};
    ghost use Rattle.mapfile_text.specs.declared.heading.Program.TheVariants.{Ddrescue};
    ghost use Rattle.fill_generate.specs.SweepState.{SweepState, state_at, IsSweeping};

    ghost Value = { SweepState };

    ghost view = { λ r. state_at r.settings r.domain (T.statuses r.tiles) r.mode r.cursor r.keeper };

    ghost invariant = { λ r. IsSweeping (state_at r.settings r.domain (T.statuses r.tiles) r.mode r.cursor r.keeper)
        × (r.keeper.heading.program ≡ Ddrescue) × (is_some r.keeper.names ≡ true) };
}

/// Where a sweep begins, which resumes from the position that a mapfile showed if that was of its kind.
fn first_cursor(loaded: Option<MapState>, current: Current) -> u64
    ensures { result ≡ sweep_from current loaded }
{
    match loaded {
        None => 0,
        Some(state) => {
            if state.current.symbol() == current.symbol() {
                state.pos
            } else {
                0
            }
        }
    }
}

impl<T: Tiles> Sweeping<T> {
    /// A sweep of a kind, as it begins.
    pub fn begin(job: Job<T>, mode: SweepMode) -> Sweeping<T>
        requires sweeps { CanSweep job.settings job.domain (T.statuses job.tiles) }
        requires program { job.heading.program ≡ Ddrescue }
        ensures { (w : Sweeper) → IsSweeperOf mode w → result ≡ record {
          settings = job.settings;
          domain = job.domain;
          names = job.names;
          line = job.heading.line;
          mode = mode;
          sweep = sweep_over w (T.statuses job.tiles) job.loaded job.moment;
          heard = job.heard;
        } }
    {
        let Job {
            settings,
            domain,
            tiles,
            loaded,
            names,
            heading,
            moment,
            heard,
        } = job;
        Sweeping {
            settings,
            domain,
            tiles,
            mode,
            cursor: first_cursor(loaded, mode.current()),
            keeper: Keeper {
                names: Some(names),
                heading,
                tally: Tally::first(loaded, moment, 0),
                heard,
            },
        }
    }

    /// The next piece.
    pub fn next_piece(&self) -> Option<Piece>
        ensures some { IfSome result (λ p. IsFound self.now p) }
        ensures none { IfNone result ((w : Sweeper) → IsSweeperOf self.now.mode w
            → IsSweptOut (setting_of self.now) w self.now.sweep) }
    {
        let pos = first_taken(self.mode, &self.domain, &self.tiles, self.cursor)?;
        let sector = self.settings.sector;
        let limit = (pos + self.settings.cluster) / sector * sector;
        let most = limit.min(self.tiles.end());
        let end = taken_to(self.mode, &self.domain, &self.tiles, pos, most);
        Some(Piece {
            pos,
            len: (end - pos) as usize,
        })
    }

    /// Where a piece is in the output.
    pub fn place_of(&self, piece: Piece) -> u64
        requires { IsFound self.now piece }
        ensures { result ≡ place (setting_of self.now) piece.pos }
    {
        piece.pos - self.settings.input_position + self.settings.output_position
    }

    /// Looks up a piece in the output, after taking memory for its marks, and marks as finished what is held of it.
    pub fn look_up<D: Site>(
        &mut self,
        piece: Piece,
        buffer: &mut [u8],
        site: &mut D,
    ) -> Result<(), Stop>
        requires found { IsFound self.old piece }
        requires room { length buffer.old ≡ self.old.settings.cluster }
        requires image { (D.state site.old).is_open ≡ true }
        ensures looked { OnOk result (LooksUp piece self.old self.new (D.state site.old) (D.state site.new)) }
        ensures failed { IfErr result (λ stop. self.new ≡ self.old) }
        ensures stopped { IfErr result (λ stop. LooksNot stop piece self.old (D.state site.old) (D.state site.new)) }
        ensures site { SiteStays (D.state site.old) (D.state site.new) }
        ensures room { length buffer.new ≡ length buffer.old }
    {
        let place = self.place_of(piece);
        let sector = self.settings.sector;
        let room = room_for(sector, piece.pos, piece.pos + piece.len as u64);
        if self.tiles.reserve(room).is_err() {
            return Err(Stop::NoMemory);
        }
        let Ok(read) = site.image_read(place, &mut buffer[..piece.len]) else {
            return Err(Stop::Site(SiteCall::ImageRead));
        };
        mark_held(&mut self.tiles, sector, piece.pos, &buffer[..read]);
        Ok(())
    }

    /// Goes on after a piece at this time, of which this many bytes were written. Says what is due.
    fn pass(&mut self, piece: Piece, written: u64, after: u64) -> Due
        requires { piece.pos + piece.len < 2 ^ 63 }
        ensures moved { self.new ≡ standing self.old
            (moved (current_in self.old.mode) self.old.sweep piece.pos piece.len written after) }
        ensures speaks { result.speaks
            ≡ is_line_due self.old.sweep.tally.said (current_in self.old.mode) (after / 1000) }
        ensures saves { result.saves ≡ nat_le (self.old.sweep.tally.due_at + save_interval) after }
    {
        self.cursor = piece.pos + piece.len as u64;
        let shown = MapState {
            pos: self.cursor,
            current: self.mode.current(),
            pass: 1,
        };
        self.keeper.pass_event(shown, written, after)
    }

    /// Says the line after a piece, if one is due and it is heard. A console that fails isn't told any further.
    fn say_due<C: Console>(&mut self, due: bool, console: &mut C)
        ensures stands { self.new ≡ record self.old { heard = self.new.heard } }
        ensures says { SpeaksOn (out_pieces (if due then report_text (phase_front self.old.sweep.tally.shown)
            (sweep_report (setting_of self.old) self.old.sweep) ∷ [] else [])) self.old.heard self.new.heard
            (C.state console.old) (C.state console.new) }
    {
        if due {
            let counts = counts_at_first(&self.domain, &self.tiles);
            self.keeper.say_phase(counts, console);
        }
    }

    /// Saves the map if it is time for that.
    fn save_due<D: Site>(&mut self, due: bool, site: &mut D) -> Result<(), SaveFault>
        requires no_draft { (D.state site.old).is_drafting ≡ false }
        ensures stands { self.new ≡ self.old }
        ensures call { Saves (if due then save_calls self.old.names (text_of self.old.line
            (sweep_snapshot self.old.sweep)) else []) false result (D.state site.old) (D.state site.new) }
    {
        if due {
            self.keeper.save(&self.tiles, site)
        } else {
            Ok(())
        }
    }

    /// Goes on after a piece of which this many bytes were written: reads the clock, says the line and makes the save
    /// that are due.
    pub fn end_piece<D: Site, K: Clock, C: Console>(
        &mut self,
        piece: Piece,
        written: u64,
        outside: &mut Outside<(), D, K, C>,
    ) -> Result<(), Stop>
        requires short { piece.pos + piece.len < 2 ^ 63 }
        requires no_draft { (D.state outside.old.site.now).is_drafting ≡ false }
        ensures ends { EndsPiece result piece written self.old self.new
            (between no_input D.Site K.Clock C.Console outside.old outside.new) }
        ensures draft { OnOk result ((D.state outside.new.site.now).is_drafting ≡ false) }
        ensures draft_left { IfErr result (λ stop. (D.state outside.new.site.now).is_drafting ≡ drafting_at_stop stop) }
        ensures site { SiteKeeps (D.state outside.old.site.now) (D.state outside.new.site.now) }
        ensures image { (D.state outside.new.site.now).is_open ≡ (D.state outside.old.site.now).is_open }
        ensures clock { ClockKeeps (K.state outside.old.clock.now) (K.state outside.new.clock.now) }
        ensures same { AreSame outside.old outside.new }
    {
        let after = outside.clock.now_ms();
        let due = self.pass(piece, written, after);
        self.say_due(due.speaks, outside.console);
        match self.save_due(due.saves, outside.site) {
            Ok(()) => Ok(()),
            Err(fault) => Err(Stop::Site(fault.call)),
        }
    }

    /// Saves the map at the sweep's end, which is finished if it has no stop; then it says the last line.
    pub fn close<D: Site, C: Console>(
        self,
        stop: Option<Stop>,
        site: &mut D,
        console: &mut C,
    ) -> Closed
        requires no_draft { MayClose stop (D.state site.old) }
        ensures closes { ClosesFiles (setting_of self) self.sweep stop result.end (D.state site.old)
            (D.state site.new) }
        ensures says { SpeaksOn (out_pieces (report_text (last_front (is_done result.end))
            (sweep_report (setting_of self) self.sweep) ∷ [])) self.heard result.heard (C.state console.old)
            (C.state console.new) }
        ensures site { SiteKeeps (D.state site.old) (D.state site.new) }
        ensures image { (D.state site.new).is_open ≡ (D.state site.old).is_open }
    {
        let Sweeping {
            settings: _,
            domain,
            tiles,
            mode: _,
            cursor: _,
            keeper,
        } = self;
        let counts = counts_at_first(&domain, &tiles);
        keeper.close(stop, counts, &tiles, site, console)
    }
}
