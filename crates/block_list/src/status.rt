//! The statuses of a position, and their symbols.
ghost use Rattle.std.specs.Prelude.{◌≡◌, ◌↔◌, IsTrue};
ghost use Rattle.block_list.specs.Status.{symbol, status_of_symbol};

/// What is known of a position (GNU ddrescue manual, "Mapfile structure").
#[derive(Clone, Copy, Debug, PartialEq, Eq)]
pub enum Status {
    /// `?`: not read yet.
    NonTried,
    /// `*`: a read of it failed, and its block's edges aren't known.
    NonTrimmed,
    /// `/`: inside a block that was trimmed, and not read one by one yet.
    NonScraped,
    /// `-`: a read of its sector alone failed.
    BadSector,
    /// `+`: its byte is in the output.
    Finished,
}

impl Status {
    /// Whether this is that status.
    pub fn is(self, other: Status) -> bool
        ensures { IsTrue result ↔ (self ≡ other) }
    {
        self == other
    }

    /// The character that a mapfile has for the status.
    pub fn symbol(self) -> u8
        ensures { result ≡ symbol self }
    {
        match self {
            Status::NonTried => b'?',
            Status::NonTrimmed => b'*',
            Status::NonScraped => b'/',
            Status::BadSector => b'-',
            Status::Finished => b'+',
        }
    }
    /// The status that a character of a mapfile is for.
    pub fn of_symbol(symbol: u8) -> Option<Status>
        ensures { result ≡ status_of_symbol symbol }
    {
        match symbol {
            b'?' => Some(Status::NonTried),
            b'*' => Some(Status::NonTrimmed),
            b'/' => Some(Status::NonScraped),
            b'-' => Some(Status::BadSector),
            b'+' => Some(Status::Finished),
            _ => None,
        }
    }
}
