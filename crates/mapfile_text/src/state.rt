//! The state of a rescue as its mapfile's first line shows it.
ghost use Rattle.std.specs.Prelude.{◌≡◌};
ghost use Rattle.mapfile_text.specs.Printed.{current_symbol};

/// What the program was doing when a mapfile was saved.
#[derive(Clone, Copy, Debug, PartialEq, Eq)]
pub enum Current {
    /// `?`
    Copying,
    /// `*`
    Trimming,
    /// `/`
    Scraping,
    /// `-`
    Retrying,
    /// `F`
    Filling,
    /// `G`
    Generating,
    /// `+`
    Finished,
}

impl Current {
    /// The character that a mapfile has for what the program was doing.
    pub fn symbol(self) -> u8
        ensures { result ≡ current_symbol self }
    {
        match self {
            Current::Copying => b'?',
            Current::Trimming => b'*',
            Current::Scraping => b'/',
            Current::Retrying => b'-',
            Current::Filling => b'F',
            Current::Generating => b'G',
            Current::Finished => b'+',
        }
    }
}

/// Where a run is: its position in bytes, what it does there, and in which pass, counted from 1.
#[derive(Clone, Copy, Debug, PartialEq, Eq)]
pub struct MapState {
    pub pos: u64,
    pub current: Current,
    pub pass: u32,
}
