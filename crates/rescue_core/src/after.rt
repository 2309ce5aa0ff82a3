//! What a run does after a read that it gathered.
ghost use Rattle.std.specs.Prelude.{◌≡◌, ◌≤◌};
ghost use Rattle.rescue_rules.specs.Step.{Event};
ghost use Rattle.rescue_core.specs.RunState.{run_of, IsRun};
ghost use Rattle.rescue_core.specs.TurnParts.{IsGathered, MayGoOn, GoesOn};

use crate::counts::count_after;
use crate::due::Due;
use crate::gather::Gathered;
use crate::mark::mark;
use crate::progress::progress_after;
use crate::running::Running;
use crate::tally::{shown_at, tally_after};
use crate::turn::{Advanced, Read, Turn};
use crate::wanted::trims_on;
use block_list::tiles::Tiles;
use rescue_domain::live::Live;
use rescue_rules::phase::Phase;
use transfer_token::fetch::Cut;
use transfer_token::token::Request;

impl<T: Tiles> Running<T> {
    /// Marks what was kept and missed, moves cursor and skip on, and counts the read; tells what is due then.
    // A plain read of copying has its own copy of `go_on`, in which most of what it asks is known (bench/turns).
    #[inline(always)]
    pub(crate) fn go_on_by_kind(&mut self, request: Request, gathered: Gathered) -> Advanced
        requires gathered { MayGoOn T.Tiles self.old request gathered }
        requires spare { 6 ≤ T.spare self.old.tiles }
        ensures { (e : Event) → IsGathered request (run_of T.Tiles self.old) gathered e
            → GoesOn e (run_of T.Tiles self.old) (run_of T.Tiles self.new) result × IsRun T.Tiles self.new }
    {
        let Gathered { kept, turn, after } = gathered;
        match kept {
            Cut::Whole(landed) if self.phase == Phase::Copying && turn.is_plain() => {
                let turn = Turn {
                    whole: true,
                    slow: false,
                    ended: false,
                    ..turn
                };
                let kept = Cut::Whole(landed);
                let gathered = Gathered { kept, turn, after };
                self.go_on(Phase::Copying, request, gathered)
            }
            kept => {
                let gathered = Gathered { kept, turn, after };
                self.go_on(self.phase, request, gathered)
            }
        }
    }

    /// Marks and counts after any read, in the run's phase.
    #[inline(always)]
    fn go_on(&mut self, phase: Phase, request: Request, gathered: Gathered) -> Advanced
        requires phase { phase ≡ self.old.phase }
        requires gathered { MayGoOn T.Tiles self.old request gathered }
        requires spare { 6 ≤ T.spare self.old.tiles }
        ensures { (e : Event) → IsGathered request (run_of T.Tiles self.old) gathered e
            → GoesOn e (run_of T.Tiles self.old) (run_of T.Tiles self.new) result × IsRun T.Tiles self.new }
    {
        let Gathered { kept, turn, after } = gathered;
        let top = self.tiles.end();
        let end = request.pos + request.len as u64;
        let met = mark(
            &mut self.tiles,
            kept,
            request,
            &self.settings,
            phase,
            self.progress,
        );
        let live = Live {
            domain: &self.domain,
            over: self.keeper.tally.over,
        };
        let read = Read { request, turn };
        count_after(&mut self.counts, live, &self.tiles, phase, read, met);
        let more = trims_on(live, &self.tiles, phase, end);
        progress_after(&self.settings, phase, &mut self.progress, top, read, more);
        let shown = shown_at(phase, self.progress);
        let Due { speaks, saves } = tally_after(&mut self.keeper.tally, turn, after, shown, met);
        Advanced {
            turn,
            speaks,
            saves,
        }
    }
}
