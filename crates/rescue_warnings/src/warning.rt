//! The lines of warnings, and how they are put.
ghost use Rattle.std.specs.Prelude.{◌≡◌, ◌+◌, ◌≤◌, ◌++◌, length};
ghost use Rattle.std.specs.List.{concat};
ghost use Rattle.arrayvec.specs.ArrayVec.{array_vec_len};
ghost use Rattle.program_advice.specs.Lines.{IsOneLine};
ghost use Rattle.rescue_console.specs.Speaking.{Speaks};
ghost use Rattle.rescue_warnings.specs.declared.warning.Names.{Names as NamesCode};
ghost use Rattle.rescue_warnings.specs.Warnings.{advice_texts, mounting_text, part_text, row_text, stop_text, storage_text, warning_pieces, warning_text, width, widths};

use self::Part::{Domain, First, Infile, Mapfile, Outfile, Said, Second, Text};
use crate::advice::Advice;
use crate::facts::Storage;
use itoa::Buffer;
use kernel_devices::devices::Mounting;
use program_advice::line::{Line, add, add_quoted, finished};
use rescue_console::console::{Channel, Console};

/// The names of the command line; empty if there is none.
#[derive(Clone, Copy)]
pub struct Names<'a> {
    pub infile: &'a str,
    pub outfile: &'a str,
    /// Of a plan its test map.
    pub mapfile: &'a str,
    pub domain: &'a str,
}

/// A part of a warning's text.
#[derive(Clone, Copy)]
enum Part {
    Text(&'static str),
    /// A name, which is put in quotes.
    Infile,
    Outfile,
    Mapfile,
    Domain,
    /// The first number of the row.
    First,
    Second,
    /// The row's own text.
    Said,
}

/// The parts of a warning's text, and what fills them.
#[derive(Clone, Copy)]
struct Row {
    parts: &'static [Part],
    first: u64,
    second: u64,
    said: &'static str,
}

/// Adds a part of a row.
fn add_part(line: &mut Line, names: Names<'_>, row: Row, part: Part)
    requires { array_vec_len line.old + width row part ≤ 500 }
    ensures text { line.new.items ≡ line.old.items ++ part_text names.entry row part }
    ensures len { array_vec_len line.new ≤ array_vec_len line.old + width row part }
{
    match part {
        Part::Text(text) => add(line, text),
        Part::Infile => add_quoted(line, names.infile),
        Part::Outfile => add_quoted(line, names.outfile),
        Part::Mapfile => add_quoted(line, names.mapfile),
        Part::Domain => add_quoted(line, names.domain),
        Part::First => add(line, Buffer::new().format(row.first)),
        Part::Second => add(line, Buffer::new().format(row.second)),
        Part::Said => add(line, row.said),
    }
}

/// What leaves no mapfile before its first save.
fn stop_text(is_told: bool) -> &'static str
    ensures text { result.now ≡ stop_text is_told }
    ensures len { length result.now ≤ 22 }
{
    if is_told {
        "a crash or a power cut"
    } else {
        "a stop"
    }
}

/// What a file system does to a file.
fn storage_text(storage: Storage) -> &'static str
    ensures text { result.now ≡ storage_text storage }
    ensures len { length result.now ≤ 80 }
{
    match storage {
        Storage::Memory => " lies in memory: a power cut or a reboot loses it",
        Storage::Overlay => " lies on an overlay: on a live system a reboot loses it",
        Storage::NoJournal => " lies on a file system without a journal: a power cut may damage it",
        Storage::Fuse => {
            " lies on a file system that may lack a journal: a power cut may damage it"
        }
    }
}

/// What it means that the infile's device is mounted.
fn mounting_text(mounting: Mounting) -> &'static str
    ensures text { result.now ≡ mounting_text mounting }
    ensures len { length result.now ≤ 80 }
{
    match mounting {
        Mounting::Writable => " or a part of it is mounted for writing: unmount it",
        Mounting::ReadOnly => {
            " or a part of it is mounted: the kernel may answer from memory, so unmount it"
        }
    }
}

/// The row of an advice: its parts, its numbers in their order, and the text that depends on the case.
#[rattlefmt::skip]
fn row_of(advice: Advice) -> Row
    ensures text { (names : NamesCode) → row_text names result ≡ concat (advice_texts names advice) }
    ensures width { widths result result.parts.now ≤ 460 }
{
    const OUTFILE_SHORT: &[Part] = &[
        Text("outfile "), Outfile, Text(" has "), First, Text(" B, but the mapfile calls positions up to "), Second,
        Text(" finished: what is missing won't be read again; mount the outfile's disk, or see 'man ddrescue'"),
    ];
    const MAP_PAST_INFILE: &[Part] = &[
        Text("infile "), Infile, Text(" has "), First, Text(" B, but the mapfile ends at "), Second,
        Text(": if it is another disk's, stop now"),
    ];
    const EMPTY_INFILE: &[Part] = &[Text("infile "), Infile, Text(" has no bytes")];
    const BEGINS_PAST_INFILE: &[Part] = &[
        Text("infile "), Infile, Text(" ends at "), First,
        Text(", and option -i begins there or past it: there is nothing to read"),
    ];
    const NOTHING_ASKED: &[Part] = &[Text("option -s asks for 0 B")];
    const NOTHING_LISTED: &[Part] = &[Text("option -C takes only what the mapfile lists, and it lists nothing")];
    const NEW_MAPFILE: &[Part] = &[
        Text("mapfile "), Mapfile, Text(" doesn't exist yet, but the outfile has "), First,
        Text(" B: is the mapfile's name right? if not, all is read again"),
    ];
    const LINKED_MAPFILE: &[Part] = &[
        Text("mapfile "), Mapfile, Text(" is a link, and the first save puts a file in its place"),
    ];
    const UNSAFE_OUTFILE: &[Part] = &[Text("outfile "), Outfile, Said];
    const UNSAFE_MAPFILE: &[Part] = &[Text("mapfile "), Mapfile, Said];
    const NEW_OUTFILE: &[Part] = &[Text("outfile "), Outfile, Text(" doesn't exist: fill mode makes a new one")];
    const NOTHING_TO_FILL: &[Part] = &[
        Text("mapfile "), Mapfile, Text(" lists nothing, so fill mode writes nothing"),
    ];
    const LONG_PATTERN: &[Part] = &[
        Text("infile "), Infile, Text(" has "), First, Text(" B, and fill mode repeats only the first "), Second,
        Text(" B: are infile and outfile swapped?"),
    ];
    const OTHER_SECTOR: &[Part] = &[
        Text("infile "), Infile, Text(" has sectors of "), First, Text(" B, and option -b takes them for "), Second,
        Text(" B: give option -b "), First,
    ];
    const MOUNTED_INFILE: &[Part] = &[Text("infile "), Infile, Said];
    const OUTFILE_ON_DISK: &[Part] = &[
        Text("outfile "), Outfile, Text(" lies on the infile's disk: each write wears it, so use another disk"),
    ];
    const MAPFILE_ON_DISK: &[Part] = &[
        Text("mapfile "), Mapfile, Text(" lies on the infile's disk: each write wears it, so use another disk"),
    ];
    const LONG_PLAN: &[Part] = &[
        Text("test mapfile "), Mapfile, Text(" ends at "), First,
        Text(", and nothing past it can be read: the plan has at least "), Second,
        Text(" reads; a smaller length or option -n makes fewer"),
    ];
    const NOTHING_TO_COMPARE: &[Part] = &[
        Text("mapfile "), Mapfile, Text(" calls nothing finished that is to be compared"),
    ];
    const LATE_MAPFILE: &[Part] = &[
        Text("mapfile "), Mapfile,
        Text(" doesn't exist, so a new rescue begins; its map is first saved after 30 s, and "), Said,
        Text(" before that leaves none"),
    ];
    const EMPTY_DOMAIN: &[Part] = &[
        Text("domain mapfile "), Domain, Text(" calls nothing finished that is to be read"),
    ];
    const MAP_BEFORE_INFILE: &[Part] = &[
        Text("infile "), Infile, Text(" has "), First, Text(" B, but the mapfile ends at "), Second,
        Text(": if it is another disk's, stop now (-s makes such maps, too)"),
    ];
    const NO_LENGTH: &[Part] = &[
        Text("infile "), Infile, Text(" is a character device: its length may be unknown, and then nothing is read"),
    ];
    match advice {
        Advice::OutfileShort { length, finished } => {
            Row { parts: OUTFILE_SHORT, first: length, second: finished, said: "" }
        }
        Advice::MapPastInfile { end, length } => Row { parts: MAP_PAST_INFILE, first: length, second: end, said: "" },
        Advice::EmptyInfile => Row { parts: EMPTY_INFILE, first: 0, second: 0, said: "" },
        Advice::BeginsPastInfile { length } => Row { parts: BEGINS_PAST_INFILE, first: length, second: 0, said: "" },
        Advice::NothingAsked => Row { parts: NOTHING_ASKED, first: 0, second: 0, said: "" },
        Advice::NothingListed => Row { parts: NOTHING_LISTED, first: 0, second: 0, said: "" },
        Advice::NewMapfile { length } => Row { parts: NEW_MAPFILE, first: length, second: 0, said: "" },
        Advice::LinkedMapfile => Row { parts: LINKED_MAPFILE, first: 0, second: 0, said: "" },
        Advice::UnsafeOutfile { storage } => {
            Row { parts: UNSAFE_OUTFILE, first: 0, second: 0, said: storage_text(storage) }
        }
        Advice::UnsafeMapfile { storage } => {
            Row { parts: UNSAFE_MAPFILE, first: 0, second: 0, said: storage_text(storage) }
        }
        Advice::NewOutfile => Row { parts: NEW_OUTFILE, first: 0, second: 0, said: "" },
        Advice::NothingToFill => Row { parts: NOTHING_TO_FILL, first: 0, second: 0, said: "" },
        Advice::LongPattern { length, cluster } => {
            Row { parts: LONG_PATTERN, first: length, second: cluster, said: "" }
        }
        Advice::OtherSector { own, sector } => Row { parts: OTHER_SECTOR, first: own, second: sector, said: "" },
        Advice::MountedInfile { mounting } => {
            Row { parts: MOUNTED_INFILE, first: 0, second: 0, said: mounting_text(mounting) }
        }
        Advice::OutfileOnDisk => Row { parts: OUTFILE_ON_DISK, first: 0, second: 0, said: "" },
        Advice::MapfileOnDisk => Row { parts: MAPFILE_ON_DISK, first: 0, second: 0, said: "" },
        Advice::LongPlan { end, reads } => Row { parts: LONG_PLAN, first: end, second: reads, said: "" },
        Advice::NothingToCompare => Row { parts: NOTHING_TO_COMPARE, first: 0, second: 0, said: "" },
        Advice::LateMapfile { stop_is_told } => {
            Row { parts: LATE_MAPFILE, first: 0, second: 0, said: stop_text(stop_is_told) }
        }
        Advice::EmptyDomain => Row { parts: EMPTY_DOMAIN, first: 0, second: 0, said: "" },
        Advice::MapBeforeInfile { end, length } => {
            Row { parts: MAP_BEFORE_INFILE, first: length, second: end, said: "" }
        }
        Advice::NoLength => Row { parts: NO_LENGTH, first: 0, second: 0, said: "" },
    }
}

/// Adds the text of a warning.
fn say(line: &mut Line, names: Names<'_>, advice: Advice)
    requires { array_vec_len line.old ≤ 29 }
    ensures text { line.new.items ≡ line.old.items ++ concat (advice_texts names.entry advice) }
    ensures len { array_vec_len line.new ≤ 500 }
{
    let row = row_of(advice);
    for part in row.parts {
        add_part(line, names, row, *part);
    }
}

/// The line of a warning, which a program of this name puts before a run. No line has more than 512 bytes, and none has
/// a control character before its newline.
pub fn line_of_advice(program: &str, names: Names<'_>, advice: Advice) -> Line
    requires { length program.now ≤ 18 }
    ensures text { result.items ≡ warning_text program.now names.entry advice }
    ensures line { IsOneLine result.items }
{
    let mut text = Line::new();
    add(&mut text, program);
    add(&mut text, ": warning: ");
    say(&mut text, names, advice);
    finished(&text)
}

/// Puts the lines of warnings on standard error, each by one put, up to the first put that fails. Nothing else is put.
pub fn put_warnings<P: Console>(
    program: &str,
    names: Names<'_>,
    advices: &[Advice],
    console: &mut P,
)
    requires { length program.now ≤ 18 }
    ensures { Speaks (warning_pieces program.now names.entry advices.now) (P.state console.old) (P.state console.new) }
{
    'lines: for advice in advices {
        let line = line_of_advice(program, names, *advice);
        let Ok(()) = console.put(Channel::Err, line.as_slice()) else {
            return;
        };
    }
}
