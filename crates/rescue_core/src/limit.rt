//! The limits that are set to a run.
ghost use Rattle.std.specs.Prelude.{◌≡◌, ◌-◌, Some, None, if◌then◌else◌};
ghost use Rattle.rescue_rules.specs.declared.stop.Limit.TheVariants.{TimedOut};
ghost use Rattle.rescue_rules.specs.Step.{areas_allowed, exceeds, limit_met, time_allowed};
ghost use Rattle.rescue_core.specs.RunState.{HasCounts, setting_in, run_of};

use crate::running::Running;
use block_list::tiles::Tiles;
use rescue_rules::stop::Limit;
use run_options::limits::AreaLimit;

/// Whether a number is beyond a limit, if there is one.
fn exceeds(limit: Option<u64>, number: u64) -> bool
    ensures { result ≡ exceeds limit number }
{
    match limit {
        None => false,
        Some(limit) => limit < number,
    }
}

impl<T: Tiles> Running<T> {
    /// The limit that the run has met, if it has: none before its first event.
    pub(crate) fn limit(&self) -> Option<Limit>
        requires { HasCounts (run_of T.Tiles self.now) self.now.counts }
        ensures { result ≡ limit_met (setting_in (run_of T.Tiles self.now)) (run_of T.Tiles self.now).machine }
    {
        if !self.keeper.tally.had_event {
            None
        } else if exceeds(self.settings.limits.errors, self.keeper.tally.failed) {
            Some(Limit::TooManyErrors(self.keeper.tally.failed))
        } else if self.has_too_many() {
            Some(Limit::TooManyAreas(self.counts.failed.areas))
        } else {
            self.late()
        }
    }

    /// Whether more areas have failed than may.
    fn has_too_many(&self) -> bool
        ensures { result ≡ exceeds
            (areas_allowed (setting_in (run_of T.Tiles self.now)) (run_of T.Tiles self.now).machine)
            self.now.counts.failed.areas }
    {
        let areas = self.counts.failed.areas;
        match self.settings.limits.areas {
            None => false,
            Some(AreaLimit::Total(most)) => most < areas,
            Some(AreaLimit::New(more)) => self.keeper.tally.first_areas.saturating_add(more)
                < areas,
        }
    }

    /// The limit of a run that had no read but failed ones for longer than may be.
    fn late(&self) -> Option<Limit>
        ensures { result ≡ (if exceeds (time_allowed (setting_in (run_of T.Tiles self.now)))
            (self.now.keeper.tally.now - self.now.keeper.tally.whole_at)
            then Some (TimedOut (self.now.keeper.tally.now - self.now.keeper.tally.whole_at)) else None) }
    {
        let seconds = self.settings.limits.timeout?;
        let idle = self
            .keeper
            .tally
            .now
            .saturating_sub(self.keeper.tally.whole_at);
        if seconds.saturating_mul(1000) < idle {
            Some(Limit::TimedOut(idle))
        } else {
            None
        }
    }
}
