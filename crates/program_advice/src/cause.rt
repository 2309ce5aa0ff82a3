//! The causes of answers that a line can name.

/// What a file is to a program.
#[derive(Clone, Copy)]
pub enum Role {
    Infile,
    Pattern,
    Outfile,
    Mapfile,
    /// The mapfile's name followed by `.tmp`.
    Draft,
    DomainMap,
    TestMap,
    OtherMap,
}

/// A file that the arguments name.
#[derive(Clone, Copy)]
pub struct Named<'a> {
    pub role: Role,
    pub name: &'a str,
}

/// What a program was doing with a file when the system refused.
#[derive(Clone, Copy)]
pub enum Doing {
    Open,
    Read,
    Write,
    /// Making it durable.
    Sync,
    Remove,
}

/// What is true of a file.
#[derive(Clone, Copy)]
pub enum Fact {
    /// Another rescue has locked the file.
    InUse,
    /// The file is the infile or the outfile.
    NotApart,
    /// The file or its draft is the infile or the outfile.
    DraftNotApart,
    /// The file is no regular file, and only such a file is read or replaced.
    NotRegular,
    /// The file is no regular file, and an option allows it all the same.
    NeedsForce,
    Absent,
    /// The file isn't there, and its name is one of a device.
    Unplugged,
    Exists,
    Empty,
    /// The file's text is no map.
    NoMap,
    /// The file's name led elsewhere when it was to be renamed.
    Replaced,
}

/// What uses a device.
#[derive(Clone, Copy)]
pub enum UsedBy<'a> {
    /// The file system on the device is mounted in this folder.
    Mount(&'a str),
    /// The device is swap space.
    Swap,
    /// The device of this name is made of it.
    Device(&'a str),
}

/// A standard stream.
#[derive(Clone, Copy)]
pub enum Stream {
    Input,
    Output,
}

/// The advice that names nothing.
#[derive(Clone, Copy)]
pub enum Hint {
    /// The infile and the outfile are the same file, with two names.
    SameFile,
    InputLost,
    /// A rescue that has a mapfile was stopped, because someone asked for that.
    StoppedRescue,
    /// A rescue without a mapfile was stopped so.
    StoppedWithoutMap,
    StoppedComparison,
    /// The search for a partition was stopped so.
    StoppedSearch,
    NoMemory,
    /// The list of blocks has a line that isn't one.
    BlockNumbers,
    /// The infile has no partition table where one was looked for.
    NoTable,
    /// The infile has a table of another kind.
    OtherTable,
    NoPartition,
}

/// An option that sets a limit to a run.
#[derive(Clone, Copy)]
pub enum LimitOption {
    ReadErrors,
    BadAreas,
    Timeout,
}

/// Why an answer came, as far as a person can use it.
#[derive(Clone, Copy)]
pub enum Cause<'a> {
    /// The system refused a call on a file, with this reason.
    Refused {
        doing: Doing,
        file: Named<'a>,
        reason: &'a str,
    },
    /// The mapfile of this name couldn't be saved.
    Unsaved {
        name: &'a str,
        reason: &'a str,
    },
    /// The file system is full. A mapfile may be there from which the same command goes on.
    Full {
        file: Named<'a>,
        resumes: bool,
    },
    /// The file is the cause.
    File {
        file: Named<'a>,
        fact: Fact,
    },
    /// The file is a block device, and this device, which is the file, a part of it or its disk, is used.
    DeviceInUse {
        file: Named<'a>,
        device: &'a str,
        by: UsedBy<'a>,
    },
    /// The file's text is no map, and this is the line that shows it.
    BadLine {
        file: Named<'a>,
        line: &'a [u8],
    },
    /// Memory was short for the map of a file of this many bytes.
    LargeMap {
        file: Named<'a>,
        bytes: u64,
    },
    /// Two files have this name.
    OneName {
        first: Role,
        second: Role,
        name: &'a str,
    },
    /// The run met a limit that an option set.
    Limit {
        option: LimitOption,
        resumes: bool,
    },
    /// A standard stream failed.
    Stream {
        stream: Stream,
        reason: &'a str,
    },
    /// An argument can't be read as what it stands for.
    Argument {
        word: &'a str,
        wanted: &'a str,
    },
    /// How the program is called.
    Usage {
        usage: &'a str,
    },
    /// A run that is done left this many bytes that failed.
    Left {
        bytes: u64,
        /// Options left out trimming or scraping.
        skips: bool,
        /// The kernel's cache loses good sectors beside a bad one.
        loses_neighbors: bool,
    },
    /// The kernel refused this many reads past its cache, and they were made through it.
    Cached {
        reads: u64,
    },
    Hint(Hint),
}
