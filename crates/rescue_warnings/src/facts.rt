//! What is known before a run: what the command asks for, and what was read without changing anything.

use kernel_devices::devices::Mounting;

/// What a program is to do.
#[derive(Clone, Copy, Debug, PartialEq, Eq)]
pub enum Work {
    Rescue,
    Fill,
    Generate,
    Comparison,
    Plan,
}

/// What a name reaches. Lengths and sizes are in bytes.
#[derive(Clone, Copy, Debug, PartialEq, Eq)]
pub enum Found {
    Absent,
    Regular {
        length: u64,
    },
    /// A block device.
    Device {
        length: Option<u64>,
        /// The size of its own sectors.
        sector: Option<u64>,
    },
    CharacterDevice,
}

/// Where a mapfile's last finished block ends.
#[derive(Clone, Copy, Debug, PartialEq, Eq)]
pub enum Finished {
    /// No block is finished.
    Nowhere,
    UpTo(u64),
}

/// What a mapfile's text says.
#[derive(Clone, Copy, Debug, PartialEq, Eq)]
pub enum MapText {
    NoFile,
    NoBlock,
    Blocks {
        /// Where the last block ends.
        end: u64,
        finished: Option<Finished>,
    },
}

/// What a file system may do to what is written there.
#[derive(Clone, Copy, Debug, PartialEq, Eq)]
pub enum Storage {
    /// It lies in memory.
    Memory,
    /// It is laid over another one, whose files it doesn't change. A live system has it in memory.
    Overlay,
    /// It has no journal.
    NoJournal,
    /// A program makes it of a device. It may have no journal.
    Fuse,
}

/// What is known of where a file lies that is written.
#[derive(Clone, Copy, Debug, PartialEq, Eq)]
pub struct Place {
    /// The file is known to lie on a disk on which the infile lies, too.
    pub on_infile_disk: bool,
    /// What the file system may do to it. None if that is nothing, or isn't known.
    pub storage: Option<Storage>,
}

impl Place {
    /// Nothing is known.
    pub fn unknown() -> Place {
        Place {
            on_infile_disk: false,
            storage: None,
        }
    }
}

/// What is known before a run. None stands for what isn't known.
#[derive(Clone, Copy, Debug, PartialEq, Eq)]
pub struct Facts {
    pub work: Work,
    /// Where the work begins in the infile, in bytes.
    pub input_position: u64,
    /// Where the work begins in the outfile, in bytes.
    pub output_position: u64,
    /// The most bytes that are asked for, if an option says so.
    pub size: Option<u64>,
    /// The size of a sector in bytes.
    pub sector: u64,
    /// The size of a cluster in bytes.
    pub cluster: u64,
    /// Only what the mapfile lists is asked for.
    pub complete_only: bool,
    /// Only what is finished in another map is asked for.
    pub domain_map: bool,
    /// The text of the map of what is asked for.
    pub domain: Option<MapText>,
    /// Each bad sector is read by itself: nothing leaves out trimming or scraping.
    pub scrapes: bool,
    /// The infile, or of a plan a file of its length.
    pub infile: Option<Found>,
    /// How the infile, a part of it or a device that is made of it is mounted.
    pub infile_mounting: Option<Mounting>,
    pub outfile: Option<Found>,
    pub outfile_place: Place,
    /// The text of the mapfile, or of a plan that of its test map.
    pub map: Option<MapText>,
    /// The mapfile's name is known to be a link.
    pub map_is_link: bool,
    pub map_place: Place,
    /// A comparison reads the infile through the kernel's cache, if that is a block device.
    pub is_cached: bool,
    /// A stop can be asked for, and the program then saves the map before it ends.
    pub stop_is_told: bool,
}
