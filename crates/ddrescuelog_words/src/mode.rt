//! What is done with a map.
ghost use Rattle.std.specs.Prelude.{◌≡◌};
ghost use Rattle.ddrescuelog_words.specs.Modes.{mode_row};

use block_list::status::Status;
use block_list::types::TypeSet;
use map_algebra::change::TypeChange;
use map_algebra::combine::Op;
use mapfile_text::read::Mode;

/// What is done with a map. One of these is asked for.
#[derive(Clone, Copy, Debug, PartialEq, Eq)]
pub enum LogMode {
    /// The map is printed with types changed.
    Change(TypeChange),
    /// The map is printed, combined with another map.
    Combine(Op),
    /// The map is printed, with the gaps between its blocks filled with a status.
    Complete(Status),
    /// The numbers of the blocks in which positions of some types lie are printed.
    ListBlocks(TypeSet),
    /// A map is made of the numbers of blocks: of one status in these blocks, of another in the rest.
    Create { listed: Status, rest: Status },
    /// Whether the map is finished is answered; the mapfile of one that is may be removed.
    Test { removes: bool },
    /// Whether the map is that of another mapfile is answered; only what is finished may count.
    Compare { finished: bool },
    /// How much there is of each status is printed.
    Summarize,
}

/// Which maps a mode takes, and what becomes of the mapfile.
#[derive(Clone, Copy, Debug, PartialEq, Eq)]
pub struct ModeRow {
    /// The letter of the option that names the other map, if there is another.
    pub other_letter: Option<char>,
    /// How the mapfile is read.
    pub mapfile: Mode,
    /// A mapfile is made, and none is read.
    pub creates: bool,
    /// A mapfile that is done is removed.
    pub removes_map: bool,
}

impl LogMode {
    /// The mode's row.
    pub fn row(&self) -> ModeRow
        ensures { result ≡ mode_row self.now }
    {
        let mut row = ModeRow {
            other_letter: None,
            mapfile: Mode::Tight,
            creates: false,
            removes_map: false,
        };
        match self {
            LogMode::Change(_) | LogMode::ListBlocks(_) | LogMode::Summarize => {}
            LogMode::Combine(Op::And) => row.other_letter = Some('y'),
            LogMode::Combine(Op::Or) => row.other_letter = Some('z'),
            LogMode::Combine(Op::Xor) => row.other_letter = Some('x'),
            LogMode::Complete(status) => row.mapfile = Mode::Loose(*status),
            LogMode::Create { .. } => row.creates = true,
            LogMode::Test { removes } => row.removes_map = *removes,
            LogMode::Compare { finished: false } => row.other_letter = Some('p'),
            LogMode::Compare { finished: true } => row.other_letter = Some('P'),
        }
        row
    }
}
