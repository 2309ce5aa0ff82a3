//! What a run keeps beside its map, its saves and its lines. A sweep keeps the same.
ghost use Rattle.std.specs.Prelude.{◌≡◌, ◌+◌, ◌/◌, false, nat_le, [], ◌∷◌, Some};
ghost use Rattle.crash_site.specs.SiteChanges.{Keeps as SiteKeeps};
ghost use Rattle.rescue_console.specs.Speaking.{SpeaksOn, out_pieces};
ghost use Rattle.mapfile_text.specs.declared.heading.Program.TheVariants.{Ddrescue};
ghost use Rattle.mapfile_save.specs.Saving.{Saves};
ghost use Rattle.rescue_rules.specs.Said.{is_line_due};
ghost use Rattle.rescue_rules.specs.Step.{save_interval, tally_at};
ghost use Rattle.rescue_rules.specs.Snapshots.{snapshot_with};
ghost use Rattle.rescue_rules.specs.Lines.{phase_front, last_front, report_text, report_with, is_done};
ghost use Rattle.rescue_core.specs.Keeping.{saves_of, last_calls};
ghost use Rattle.rescue_core.specs.Closing.{EndsBy, LastCalls, MayClose, closing_with};

use crate::closing::{Closed, end_saved, last_shown};
use crate::due::{Due, pass_event};
use crate::line::{say_last, say_phase};
use crate::save_now::{save_now, save_or_sync};
use block_list::tiles::Tiles;
use crash_site::site::Site;
use mapfile_save::draft::SaveFault;
use mapfile_save::names::Names;
use mapfile_text::heading::Heading;
use mapfile_text::state::MapState;
use rescue_console::console::Console;
use rescue_rules::report::{Counts, Report};
use rescue_rules::stop::{RunEnd, Stop};
use rescue_rules::tally::Tally;

/// What a run keeps beside its map.
#[derive(Drop)]
pub struct Keeper {
    /// The names of the mapfile and of its draft, if there is a mapfile.
    pub names: Option<Names>,
    /// The heading of each saved map. The times of the heading are set when the map is saved.
    pub heading: Heading,
    pub tally: Tally,
    /// Whether lines are asked for, and each was put so far.
    pub heard: bool,
}

impl Keeper {
    /// What a line tells, with the counts of the map.
    fn report(&self, counts: Counts) -> Report
        ensures { result ≡ report_with counts self.now.tally }
    {
        Report {
            shown: self.tally.shown,
            counts,
            errors: self.tally.failed,
            taken: self.tally.now.saturating_sub(self.tally.began),
            written: self.tally.written,
        }
    }

    /// Goes on after an event at this time, from which on a mapfile shows this, and in which this many bytes were
    /// written. Tells what is due.
    pub fn pass_event(&mut self, shown: MapState, more: u64, after: u64) -> Due
        ensures stands { self.new ≡ record self.old { tally = tally_at self.old.tally shown more after } }
        ensures speaks { result.speaks ≡ is_line_due self.old.tally.said shown.current (after / 1000) }
        ensures saves { result.saves ≡ nat_le (self.old.tally.due_at + save_interval) after }
    {
        pass_event(&mut self.tally, shown, more, after)
    }

    /// Says the line after an event, if it is heard. A console that fails isn't told any further.
    pub fn say_phase<C: Console>(&mut self, counts: Counts, console: &mut C)
        ensures stands { self.new ≡ record self.old { heard = self.new.heard } }
        ensures says { SpeaksOn (out_pieces (report_text (phase_front self.old.tally.shown)
            (report_with counts self.old.tally) ∷ [])) self.old.heard self.new.heard (C.state console.old)
            (C.state console.new) }
    {
        self.heard = say_phase(console, self.heard, &self.report(counts));
    }

    /// Saves the map, if there is a mapfile.
    pub fn save<D: Site, T: Tiles>(&mut self, tiles: &T, site: &mut D) -> Result<(), SaveFault>
        requires program { self.old.heading.program ≡ Ddrescue }
        requires no_draft { (D.state site.old).is_drafting ≡ false }
        ensures call { Saves (saves_of self.old (snapshot_with (T.statuses tiles.now) self.old.tally)) false result
            (D.state site.old) (D.state site.new) }
        ensures stands { self.new ≡ record self.old { heading = self.new.heading } }
        ensures line { self.new.heading.line ≡ self.old.heading.line }
        ensures program { self.new.heading.program ≡ Ddrescue }
    {
        save_now(site, &self.names, &mut self.heading, tiles, self.tally)
    }

    /// Saves the map at the end, or syncs the output if there is no mapfile; but makes no call after one on the files
    /// that failed. Then it says the last line. What has no stop is finished.
    pub fn close<D: Site, T: Tiles, C: Console>(
        self,
        stop: Option<Stop>,
        counts: Counts,
        tiles: &T,
        site: &mut D,
        console: &mut C,
    ) -> Closed
        requires program { self.heading.program ≡ Ddrescue }
        requires no_draft { MayClose stop (D.state site.old) }
        ensures closes { EndsBy (last_calls self (closing_with stop (T.statuses tiles.now) self.tally)) stop result.end
            (D.state site.old) (D.state site.new) }
        ensures says { SpeaksOn (out_pieces (report_text (last_front (is_done result.end))
            (report_with counts self.tally) ∷ [])) self.heard result.heard (C.state console.old)
            (C.state console.new) }
        ensures site { SiteKeeps (D.state site.old) (D.state site.new) }
        ensures image { (D.state site.new).is_open ≡ (D.state site.old).is_open }
    {
        let heard = self.heard;
        let report = self.report(counts);
        let end = self.close_files(stop, tiles, site);
        let heard = say_last(console, heard, end.is_done(), &report);
        Closed { end, heard }
    }

    /// Makes the last calls on the files.
    fn close_files<D: Site, T: Tiles>(self, stop: Option<Stop>, tiles: &T, site: &mut D) -> RunEnd
        requires program { self.heading.program ≡ Ddrescue }
        requires no_draft { MayClose stop (D.state site.old) }
        ensures closes { EndsBy (last_calls self (closing_with stop (T.statuses tiles.now) self.tally)) stop result
            (D.state site.old) (D.state site.new) }
        ensures site { SiteKeeps (D.state site.old) (D.state site.new) }
        ensures image { (D.state site.new).is_open ≡ (D.state site.old).is_open }
    {
        match stop {
            None => self.save_last(None, tiles, site),
            Some(stop) => self.close_stopped(stop, tiles, site),
        }
    }

    /// Makes the last calls on the files after a stop.
    fn close_stopped<D: Site, T: Tiles>(self, stop: Stop, tiles: &T, site: &mut D) -> RunEnd
        requires program { self.heading.program ≡ Ddrescue }
        requires no_draft { MayClose (Some stop) (D.state site.old) }
        ensures closes { EndsBy (last_calls self (closing_with (Some stop) (T.statuses tiles.now) self.tally))
            (Some stop) result (D.state site.old) (D.state site.new) }
        ensures site { SiteKeeps (D.state site.old) (D.state site.new) }
        ensures image { (D.state site.new).is_open ≡ (D.state site.old).is_open }
    {
        match stop {
            Stop::SourceLost => self.save_last(Some(stop), tiles, site),
            Stop::Site(_) => RunEnd::Stopped(stop),
            Stop::LimitMet(_) => self.save_last(Some(stop), tiles, site),
            Stop::NoMemory => self.save_last(Some(stop), tiles, site),
        }
    }

    /// Makes the last save, unless a failed call on the files was the stop.
    fn save_last<D: Site, T: Tiles>(self, stop: Option<Stop>, tiles: &T, site: &mut D) -> RunEnd
        requires program { self.heading.program ≡ Ddrescue }
        requires no_draft { (D.state site.old).is_drafting ≡ false }
        ensures saves { LastCalls (last_calls self (closing_with stop (T.statuses tiles.now) self.tally)) stop result
            (D.state site.old) (D.state site.new) }
        ensures site { SiteKeeps (D.state site.old) (D.state site.new) }
        ensures image { (D.state site.new).is_open ≡ (D.state site.old).is_open }
    {
        let Keeper {
            names,
            mut heading,
            tally,
            heard: _,
        } = self;
        let tally = Tally {
            shown: last_shown(tally.shown, stop),
            ..tally
        };
        match save_or_sync(site, &names, &mut heading, tiles, tally) {
            Ok(()) => end_saved(stop),
            Err(fault) => RunEnd::SaveFailed {
                call: fault.call,
                earlier: stop,
            },
        }
    }
}
