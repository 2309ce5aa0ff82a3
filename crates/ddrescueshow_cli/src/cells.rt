//! What the positions of a cell have.
ghost use Rattle.std.specs.Prelude.{◌≡◌, ◌≤◌, ◌&&◌, ◌||◌, false, length};
ghost use Rattle.block_list.specs.declared.status.Status.{Status as StatusOf};
ghost use Rattle.block_list.specs.Status.{same};
ghost use Rattle.rescue_domain.specs.Parts.{covers};
ghost use Rattle.ddrescueshow_cli.specs.Cells.{is_seen, worst, worst_by};

use block_list::status::Status;
use block_list::tiles::Tiles;
use map_counts::pieces::{DomainPiece, Nearby, piece_at};
use rescue_domain::domain::Domain;

/// Which statuses were seen.
#[derive(Clone, Copy)]
pub(crate) struct Seen {
    bad_sector: bool,
    non_scraped: bool,
    non_trimmed: bool,
    non_tried: bool,
    finished: bool,
}

impl Seen {
    /// No status was seen.
    fn none() -> Seen
        ensures { (s : StatusOf) → is_seen result s ≡ false }
    {
        Seen {
            bad_sector: false,
            non_scraped: false,
            non_trimmed: false,
            non_tried: false,
            finished: false,
        }
    }

    /// The statuses that were seen, with the status of a piece, if the piece is in the domain.
    fn with(self, piece: DomainPiece) -> Seen
        ensures { (s : StatusOf) → is_seen result s ≡ (is_seen self s || (piece.inside && same piece.status s)) }
    {
        if !piece.inside {
            return self;
        }
        match piece.status {
            Status::BadSector => Seen {
                bad_sector: true,
                ..self
            },
            Status::NonScraped => Seen {
                non_scraped: true,
                ..self
            },
            Status::NonTrimmed => Seen {
                non_trimmed: true,
                ..self
            },
            Status::NonTried => Seen {
                non_tried: true,
                ..self
            },
            Status::Finished => Seen {
                finished: true,
                ..self
            },
        }
    }

    /// The worst status that was seen.
    fn worst(self) -> Option<Status>
        ensures { result ≡ worst_by (is_seen self) }
    {
        if self.bad_sector {
            Some(Status::BadSector)
        } else if self.non_scraped {
            Some(Status::NonScraped)
        } else if self.non_trimmed {
            Some(Status::NonTrimmed)
        } else if self.non_tried {
            Some(Status::NonTried)
        } else if self.finished {
            Some(Status::Finished)
        } else {
            None
        }
    }
}

/// The worst status of the positions of a domain from one position up to another. A walk upwards with one `near` goes
/// along the map once.
pub(crate) fn worst<T: Tiles>(
    tiles: &T,
    domain: &Domain,
    near: &mut Nearby,
    from: u64,
    to: u64,
) -> Option<Status>
    requires { to ≤ length (T.statuses tiles.now) }
    ensures { result ≡ worst (covers domain.now) (T.statuses tiles.now) from to }
{
    let mut seen = Seen::none();
    let mut at = from;
    while at < to {
        let piece = piece_at(tiles, domain, near, at, to);
        seen = seen.with(piece);
        at = piece.to;
    }
    seen.worst()
}
