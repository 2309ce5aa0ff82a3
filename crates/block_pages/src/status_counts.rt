//! How many positions have each status.
ghost use Rattle.std.specs.Prelude.{◌≡◌, ◌+◌, ◌<◌, ◌≤◌, ◌^◌};
ghost use Rattle.block_list.specs.declared.status.Status.{Status};
ghost use Rattle.block_pages.specs.Tally.{tallied};

use block_list::status::Status;

/// How many positions have each status.
#[derive(Clone, Copy, Debug, PartialEq, Eq)]
pub struct StatusCounts {
    pub non_tried: u64,
    pub non_trimmed: u64,
    pub non_scraped: u64,
    pub bad_sector: u64,
    pub finished: u64,
}

impl StatusCounts {
    /// No position of any status.
    pub fn none() -> StatusCounts
        ensures { (s : Status) → tallied result s ≡ 0 }
    {
        StatusCounts {
            non_tried: 0,
            non_trimmed: 0,
            non_scraped: 0,
            bad_sector: 0,
            finished: 0,
        }
    }

    /// Counts more positions of a status.
    pub fn add(&mut self, status: Status, size: u64)
        requires { tallied self.old status + size < 2 ^ 64 }
        ensures counted { tallied self.new status ≡ tallied self.old status + size }
        ensures others { (s : Status) → (s ≡ status → ⊥) → tallied self.new s ≡ tallied self.old s }
    {
        match status {
            Status::NonTried => self.non_tried += size,
            Status::NonTrimmed => self.non_trimmed += size,
            Status::NonScraped => self.non_scraped += size,
            Status::BadSector => self.bad_sector += size,
            Status::Finished => self.finished += size,
        }
    }

    /// The counts without some that are among them, and with others.
    pub fn exchanged(self, gone: StatusCounts, come: StatusCounts) -> StatusCounts
        requires among { (s : Status) → tallied gone s ≤ tallied self s }
        requires short { (s : Status) → tallied self s + tallied come s < 2 ^ 64 }
        ensures { (s : Status) → tallied result s + tallied gone s ≡ tallied self s + tallied come s }
    {
        StatusCounts {
            non_tried: self.non_tried - gone.non_tried + come.non_tried,
            non_trimmed: self.non_trimmed - gone.non_trimmed + come.non_trimmed,
            non_scraped: self.non_scraped - gone.non_scraped + come.non_scraped,
            bad_sector: self.bad_sector - gone.bad_sector + come.bad_sector,
            finished: self.finished - gone.finished + come.finished,
        }
    }

    /// How many positions have a status.
    pub fn of(self, status: Status) -> u64
        ensures { result ≡ tallied self status }
    {
        match status {
            Status::NonTried => self.non_tried,
            Status::NonTrimmed => self.non_trimmed,
            Status::NonScraped => self.non_scraped,
            Status::BadSector => self.bad_sector,
            Status::Finished => self.finished,
        }
    }
}
