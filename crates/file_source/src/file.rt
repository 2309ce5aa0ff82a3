//! An input as a real file or device.
ghost use Rattle.std.specs.Prelude.{◌≡◌, ◌+◌, ◌<◌, ◌≤◌, ◌^◌, true, false, [], Some, length, take, slice_range, is_some};
ghost use Rattle.std.specs.Prelude.{IfOk, IfSome, OnOk, OnErr};
ghost use Rattle.std.specs.Io.KnownBytes.{Consumes, IsAtEnd};
ghost use Rattle.faulty_source.specs.Got.{count_of, is_end};
ghost use Rattle.file_source.specs.Filling.{answer_of, first_count};

use crate::expected_reads::ExpectedReads;
use crate::opening::{Input, open_to_read};
use fault_count::FaultCount;
use faulty_source::source::{Got, Source, SourceFault, SourceLost};
use file_identity::identity::{Identity, OpenInput};
use real_files::direct::DirectFile;
use real_files::file_cursor::{FileCursor, Filled, fill};
use real_files::launcher::Launcher;
use real_files::outcome::is_of_medium;
use std::fs::File;
use std::io::{self, ErrorKind, Read};

/// Real files and devices. It tells no content. A read that the medium doesn't give is a failed one, and one to which
/// the kernel gives no byte meets the end, both as long as the input still reaches as far as its opening told.
///
/// The input is lost if it doesn't reach as far any more, or if a read fails by any other error: it was pulled out or
/// cut, or its server is gone. It is lost, too, if a read fails of a device that the kernel calls gone or offline, and
/// from the time on that a stop is asked for.
///
/// If the launcher has set the open file so, it is read past the kernel's cache, by whole sectors.
#[derive(Drop)]
pub struct FileSource {
    rt: HostRuntime,
    input: Option<Input>,
    expected: ExpectedReads,
    note: Option<OpenInput>,
    /// Who started the program, if that tells it anything.
    launcher: Option<Launcher>,
    opens: FaultCount,
    faults: FaultCount,
    losses: FaultCount,
    /// Why the last call to open an input failed, if it did.
    trouble: Option<io::Error>,
}

impl FileSource {
    /// A source with no input open.
    pub fn new(rt: HostRuntime) -> FileSource
        ensures open { (⟦<FileSource as Source>⟧.state result).is_open ≡ false }
        ensures opens { (⟦<FileSource as Source>⟧.state result).opens ≡ 0 }
        ensures faults { (⟦<FileSource as Source>⟧.state result).faults ≡ 0 }
        ensures losses { (⟦<FileSource as Source>⟧.state result).losses ≡ 0 }
    {
        let expected = ExpectedReads::new(Vec::new(rt.alloc()));
        FileSource {
            rt,
            input: None,
            expected,
            note: None,
            launcher: None,
            opens: FaultCount::new(),
            faults: FaultCount::new(),
            losses: FaultCount::new(),
            trouble: None,
        }
    }

    /// Each input that it opens from here on is noted here.
    pub fn note_in(&mut self, note: OpenInput)
        ensures { ⟦<FileSource as Source>⟧.state self.new ≡ ⟦<FileSource as Source>⟧.state self.old }
    {
        self.note = Some(note);
    }

    /// From here on an input that is opened isn't read before the launcher says that it is ready. The launcher may also
    /// ask for a stop: from then on each read of the open input is lost.
    pub fn follow(&mut self, launcher: Launcher)
        ensures { ⟦<FileSource as Source>⟧.state self.new ≡ ⟦<FileSource as Source>⟧.state self.old }
    {
        self.launcher = Some(launcher);
    }

    /// From here on what is expected of the input is read ahead, by as many bytes as there is room for here. After a
    /// read ahead that doesn't give them all, none is made up to where it asked.
    pub fn read_ahead_in(&mut self, room: Vec<u8>)
        ensures { ⟦<FileSource as Source>⟧.state self.new ≡ ⟦<FileSource as Source>⟧.state self.old }
    {
        self.expected = ExpectedReads::new(room);
    }

    /// The error of the last call to open an input, if it failed.
    pub fn trouble(&self) -> Option<io::Error>
        ensures { result ≡ self.now.trouble }
    {
        self.trouble
    }

    /// How many reads of the open input past the kernel's cache it refused, so that they were made through it.
    pub fn refused(&self) -> u64 {
        match &self.input {
            Some(
                Input {
                    direct: Some(direct),
                    ..
                },
            ) => direct.refused(),
            _ => 0,
        }
    }

    /// Whether a bad sector of the open input costs its neighbors: it is a block device that is read through the
    /// kernel's cache, whose pages are larger than its sectors.
    pub fn loses_neighbors(&self) -> bool {
        match &self.input {
            Some(input) => input.loses_neighbors,
            None => false,
        }
    }

    /// Whether a read of the open input was lost since a stop was asked for.
    pub fn was_stopped(&self) -> bool {
        match &self.input {
            Some(input) => input.is_stopped,
            None => false,
        }
    }
}

/// Whether the launcher, if there is one, asks for a stop now.
fn asks_stop(launcher: &Option<Launcher>) -> bool {
    match launcher {
        Some(launcher) => launcher.asks_stop(),
        None => false,
    }
}

fn note_open(note: &Option<OpenInput>, input: Option<Identity>) {
    if let Some(note) = note {
        note.note(input);
    }
}

/// What a read of `asked` bytes answers, by how far it came and why it ended there. None if it failed by an error that
/// isn't the medium's.
fn answer(filled: Filled, asked: usize, is_direct: bool) -> Option<Got>
    ensures { result ≡ answer_of is_direct asked filled.got filled.outcome }
{
    let Filled { got, outcome } = filled;
    match outcome {
        Ok(()) if got < asked => Some(Got::End(got)),
        Ok(()) => Some(Got::Read(got)),
        Err(error) if is_of_medium(&error, is_direct) => Some(Got::Read(got)),
        Err(_) => None,
    }
}

/// Goes on with a read whose first call of the system answered this, and didn't fill the buffer.
#[inline(never)]
fn give_rest<R: Read>(
    reader: &mut R,
    first: io::Result<usize>,
    buf: &mut [u8],
    is_direct: bool,
) -> Option<Got>
    requires few { IfOk first (λ n. n < length buf.old) }
    requires end { IfOk first (λ n. n ≡ 0 → IsAtEnd (R.remaining reader.old)) }
    ensures count { IfSome result (λ got. count_of got ≤ length buf.old) }
    ensures more { IfSome result (λ got. first_count first ≤ count_of got) }
    ensures front { take (first_count first) buf.new ≡ take (first_count first) buf.old }
    ensures came { IfSome result (λ got. Consumes (R.remaining reader.old) (R.remaining reader.new)
        (slice_range buf.new (first_count first) (count_of got))) }
    ensures end { IfSome result (λ got. is_end got ≡ true
        → (count_of got < length buf.old) × IsAtEnd (R.remaining reader.new)) }
{
    let asked = buf.len();
    let came = match first {
        Ok(0) => return Some(Got::End(0)),
        Ok(count) => count,
        Err(error) if error.kind() == ErrorKind::Interrupted => 0,
        Err(error) => {
            let failed = Filled {
                got: 0,
                outcome: Err(error),
            };
            return answer(failed, asked, is_direct);
        }
    };
    let Filled { got, outcome } = fill(reader, &mut buf[came..]);
    let filled = Filled {
        got: came + got,
        outcome,
    };
    answer(filled, asked, is_direct)
}

/// What a reader gives of as many bytes as the buffer takes, up to its end or to a byte that the medium doesn't give.
/// Nearly every read is filled by its first call, so what follows that stands apart.
#[inline(always)]
fn give<R: Read>(reader: &mut R, buf: &mut [u8], is_direct: bool) -> Option<Got>
    ensures count { IfSome result (λ got. count_of got ≤ length buf.old) }
    ensures came { IfSome result (λ got.
        Consumes (R.remaining reader.old) (R.remaining reader.new) (take (count_of got) buf.new)) }
    ensures end { IfSome result (λ got. is_end got ≡ true
        → (count_of got < length buf.old) × IsAtEnd (R.remaining reader.new)) }
{
    match reader.read(buf) {
        Ok(count) if count == buf.len() => Some(Got::Read(count)),
        first => give_rest(reader, first, buf, is_direct),
    }
}

/// Reads through the kernel's cache at a position, from what is read ahead or from the file. None if the read failed by
/// an error that isn't the medium's.
fn give_cached(file: &File, expected: &mut ExpectedReads, pos: u64, buf: &mut [u8]) -> Option<Got>
    requires { pos + length buf.old < 2 ^ 63 }
    ensures count { IfSome result (λ got. count_of got ≤ length buf.old) }
    ensures end { IfSome result (λ got. is_end got ≡ true → count_of got < length buf.old) }
{
    if expected.has_room(buf.len()) && expected.give(&mut FileCursor::new(file, pos), pos, buf) {
        return Some(Got::Read(buf.len()));
    }
    give(&mut FileCursor::new(file, pos), buf, false)
}

/// Reads past the kernel's cache at a position, from what is read ahead or from the file. None if the read failed by an
/// error that isn't the medium's.
fn give_direct(
    direct: &mut DirectFile,
    expected: &mut ExpectedReads,
    pos: u64,
    buf: &mut [u8],
) -> Option<Got>
    requires { pos + length buf.old < 2 ^ 63 }
    ensures count { IfSome result (λ got. count_of got ≤ length buf.old) }
    ensures end { IfSome result (λ got. is_end got ≡ true → count_of got < length buf.old) }
{
    direct.go_to(pos);
    if expected.has_room(buf.len()) && expected.give(direct, pos, buf) {
        return Some(Got::Read(buf.len()));
    }
    direct.go_to(pos);
    give(direct, buf, true)
}

/// Reads at a position, unless a stop is asked for. None if it is, or if the read failed by an error that isn't the
/// medium's.
fn give_unless_stopped(
    launcher: &Option<Launcher>,
    input: &mut Input,
    expected: &mut ExpectedReads,
    pos: u64,
    buf: &mut [u8],
) -> Option<Got>
    requires { pos + length buf.old < 2 ^ 63 }
    ensures count { IfSome result (λ got. count_of got ≤ length buf.old) }
    ensures end { IfSome result (λ got. is_end got ≡ true → count_of got < length buf.old) }
{
    if input.is_stopped || asks_stop(launcher) {
        input.is_stopped = true;
        return None;
    }
    match &mut input.direct {
        Some(direct) => give_direct(direct, expected, pos, buf),
        None => give_cached(&input.file, expected, pos, buf),
    }
}

impl FileSource {
    ghost use Rattle.faulty_source.specs.SourceChanges.{Loses, Stays};

    /// The answer of a read that gave less than it asked for, or failed by an error that isn't the medium's. Few reads
    /// come to it.
    #[inline(never)]
    fn answer_short(&mut self, got: Option<Got>) -> Result<Got, SourceLost>
        requires { (⟦<FileSource as Source>⟧.state self.old).is_open ≡ true }
        ensures same { IfOk result (λ answer. got ≡ Some answer) }
        ensures stays { Stays (⟦<FileSource as Source>⟧.state self.old) (⟦<FileSource as Source>⟧.state self.new) }
        ensures kept { OnOk result ((⟦<FileSource as Source>⟧.state self.new).losses
            ≡ (⟦<FileSource as Source>⟧.state self.old).losses) }
        ensures lost { OnErr result (Loses (⟦<FileSource as Source>⟧.state self.old)
            (⟦<FileSource as Source>⟧.state self.new)) }
    {
        let Some(input) = &mut self.input else {
            unreachable!()
        };
        match got {
            Some(got) if input.stays(&self.rt) => Ok(got),
            _ => {
                self.losses.raise();
                Err(SourceLost)
            }
        }
    }

    /// Reads an input that is a launcher's, or of which something may be read ahead.
    #[inline(never)]
    fn read_otherwise(&mut self, pos: u64, buf: &mut [u8]) -> Result<Got, SourceLost>
        requires opened { (⟦<FileSource as Source>⟧.state self.old).is_open ≡ true }
        requires place { pos + length buf.old < 2 ^ 63 }
        ensures count { IfOk result (λ got. count_of got ≤ length buf.old) }
        ensures end { IfOk result (λ got. is_end got ≡ true → count_of got < length buf.old) }
        ensures stays { Stays (⟦<FileSource as Source>⟧.state self.old) (⟦<FileSource as Source>⟧.state self.new) }
        ensures kept { OnOk result ((⟦<FileSource as Source>⟧.state self.new).losses
            ≡ (⟦<FileSource as Source>⟧.state self.old).losses) }
        ensures lost { OnErr result (Loses (⟦<FileSource as Source>⟧.state self.old)
            (⟦<FileSource as Source>⟧.state self.new)) }
    {
        let Some(input) = &mut self.input else {
            unreachable!()
        };
        match give_unless_stopped(&self.launcher, input, &mut self.expected, pos, buf) {
            Some(got) if got.count() == buf.len() => Ok(got),
            got => self.answer_short(got),
        }
    }
}

impl Source for FileSource {
    ghost use Rattle.fault_count.specs.Schedule.{no_schedule};

    ghost state = { λ s. record {
      tells = false;
      bytes = [];
      ends_at = 0;
      journal = [];
      name = [];
      is_open = is_some s.input;
      opens = s.opens;
      faults = s.faults;
      losses = s.losses;
      is_scheduled = false;
      schedule = record { calls = no_schedule; room = 0; bad = [] };
      below = [];
      journals_below = [];
    } };

    fn open_input(&mut self, name: &str) -> Result<u64, SourceFault> {
        self.input = None;
        self.trouble = None;
        self.expected.begin_anew();
        self.opens.raise();
        note_open(&self.note, None);
        let input = match open_to_read(&self.rt, &mut self.launcher, name) {
            Ok(input) => input,
            Err(error) => {
                self.trouble = Some(error);
                self.faults.raise();
                return Err(SourceFault);
            }
        };
        note_open(&self.note, Some(input.identity));
        let length = input.length;
        self.input = Some(input);
        Ok(length)
    }

    fn read_at(&mut self, pos: u64, buf: &mut [u8]) -> Result<Got, SourceLost> {
        let Some(input) = &self.input else {
            unreachable!()
        };
        if input.is_led || self.expected.has_room(buf.len()) {
            return self.read_otherwise(pos, buf);
        }
        match give(&mut FileCursor::new(&input.file, pos), buf, false) {
            Some(got) if got.count() == buf.len() => Ok(got),
            got => self.answer_short(got),
        }
    }

    fn expect(&mut self, from: u64, to: u64) {
        self.expected.expect(from, to);
    }
}
