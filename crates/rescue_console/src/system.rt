//! The system's clock and the program's standard streams. They tell their counts and no content.
ghost use Rattle.std.specs.Prelude.{◌≡◌, ◌≢◌, ◌+◌, ◌-◌, ◌/◌, ◌<◌, ◌≤◌, ◌^◌, min, max, false, [], length, take, IsSome, OnOk, OnErr, IfOk, IfErr};
ghost use Rattle.std.specs.Io.KnownBytes.{Appends, Consumes, IsAtEnd};
ghost use Rattle.std.specs.IoError.{error_kind};
ghost use Rattle.std.specs.Duration.{as_nanos};
ghost use Rattle.std.specs.Time.{system_time_nanos};
ghost use Rattle.fault_count.specs.Counts.{HasCause};

use crate::clock::Clock;
use crate::console::{Channel, Console, ConsoleFault};
use crate::feed::{Feed, FeedFault};
use fault_count::FaultCount;
use real_files::file_cursor;
use std::io::{self, ErrorKind, Read, Stderr, Stdin, Stdout, Write};
use std::time::{Clock as SystemClocks, Duration, SystemTime, UNIX_EPOCH};

/// Where a clock began: the time of day then, in milliseconds since 1970, and what the clock that isn't set back read,
/// in whole milliseconds.
#[derive(Clone, Copy)]
struct ClockStart {
    time: u64,
    at: u64,
}

/// The system's clock. It reads the time of day once, at its first reading, and from then on it adds the time of a
/// clock that isn't set back; so it never goes back. A time before 1970 is taken for 1970. If one of both clocks can't
/// be read, its last reading is repeated, 0 at first.
#[derive(Drop)]
pub struct SystemClock {
    rt: HostRuntime,
    start: Option<ClockStart>,
    last: u64,
    /// The last reading is given again until the clock that isn't set back comes to this, the end of its millisecond.
    until: Duration,
}

impl SystemClock {
    /// The clock of this system.
    pub fn new(rt: HostRuntime) -> SystemClock
        ensures untold { (⟦<SystemClock as Clock>⟧.state result).tells ≡ false }
        ensures last { result.last ≡ 0 }
        ensures start { result.start ≡ None }
    {
        SystemClock {
            rt,
            start: None,
            last: 0,
            until: Duration::ZERO,
        }
    }

    /// The next reading, which isn't below the last one. The clock begins with the first that both clocks give.
    fn read(&mut self) -> u64
        ensures later { self.old.last ≤ result }
        ensures last { self.new.last ≡ result }
        ensures start { IsSome self.old.start → self.new.start ≡ self.old.start }
    {
        let Ok(now) = self.rt.monotonic() else {
            return self.last;
        };
        if now < self.until {
            self.last
        } else {
            self.read_later(whole_milliseconds(now))
        }
    }

    /// The first reading in a millisecond of the other clock.
    #[inline(never)]
    fn read_later(&mut self, now: u64) -> u64
        ensures later { self.old.last ≤ result }
        ensures last { self.new.last ≡ result }
        ensures start { IsSome self.old.start → self.new.start ≡ self.old.start }
    {
        let Some(start) = self.start else {
            return self.begin(now);
        };
        self.last = reading_at(start, now, self.last);
        self.until = Duration::from_millis(now.saturating_add(1));
        self.last
    }

    /// The first reading of a clock, which begins now if the time of day can be read.
    #[cold]
    #[inline(never)]
    fn begin(&mut self, now: u64) -> u64
        ensures later { self.old.last ≤ result }
        ensures last { self.new.last ≡ result }
    {
        self.start = start_of(SystemTime::now(&self.rt), now);
        if let Some(start) = self.start {
            self.last = reading_at(start, now, self.last);
        }
        self.last
    }
}

/// A time in milliseconds since 1970.
fn milliseconds(time: SystemTime) -> u64
    ensures { result ≡ min (system_time_nanos time / 1_000_000) (2 ^ 64 - 1) }
{
    match time.duration_since(UNIX_EPOCH) {
        Ok(since) => u64::try_from(since.as_millis()).unwrap_or(u64::MAX),
        Err(_) => 0,
    }
}

/// Where a clock begins that reads this time of day as the other clock reads `at`. A time before 1970 is invalid data.
fn start_of(day: io::Result<SystemTime>, at: u64) -> Option<ClockStart>
    ensures read { IfOk day (λ time. result
        ≡ Some (record { time = min (system_time_nanos time / 1_000_000) (2 ^ 64 - 1); at = at })) }
    ensures early { IfErr day (λ e. error_kind e ≡ ErrorKind.InvalidData
        → result ≡ Some (record { time = 0; at = at })) }
    ensures unread { IfErr day (λ e. error_kind e ≢ ErrorKind.InvalidData → result ≡ None) }
{
    let time = match day {
        Ok(time) => milliseconds(time),
        Err(error) if error.kind() == ErrorKind::InvalidData => 0,
        Err(_) => return None,
    };
    Some(ClockStart { time, at })
}

/// What a clock that began there reads as the other clock reads `now`, but not below the last reading. All in
/// milliseconds.
fn reading_at(start: ClockStart, now: u64, last: u64) -> u64
    ensures { result ≡ max last
        (min (start.time + (now - start.at)) (2 ^ 64 - 1)) }
{
    let passed = now.saturating_sub(start.at);
    last.max(start.time.saturating_add(passed))
}

/// The whole milliseconds of a time that passed.
#[inline]
fn whole_milliseconds(passed: Duration) -> u64
    ensures { result ≡ min (as_nanos passed / 1_000_000) (2 ^ 64 - 1) }
{
    let seconds = passed.as_secs();
    seconds
        .saturating_mul(1_000)
        .saturating_add(u64::from(passed.subsec_millis()))
}

impl Clock for SystemClock {
    ghost state = { λ _. record {
      tells = false;
      readings = [];
      is_scheduled = false;
      schedule = [];
    } };

    fn now_ms(&mut self) -> u64 {
        self.read()
    }
}

/// A stream, and how often a put there failed.
#[derive(Drop)]
struct Stream<W> {
    to: W,
    faults: FaultCount,
    /// The error of the last put that failed.
    trouble: Option<io::Error>,
}

impl<W: Write> Stream<W> {
    fn new(to: W) -> Stream<W>
        ensures to { result.to ≡ to }
        ensures faults { result.faults ≡ 0 }
    {
        Stream {
            to,
            faults: FaultCount::new(),
            trouble: None,
        }
    }

    /// Writes a whole piece.
    fn put(&mut self, piece: &[u8]) -> Result<(), ConsoleFault>
        ensures whole { OnOk result (Appends (W.contents self.old.to) (W.contents self.new.to) piece.now) }
        ensures cause { HasCause self.old.faults self.new.faults result }
        ensures kept { OnErr result (IsSome self.new.trouble) }
    {
        if let Err(error) = file_cursor::put(&mut self.to, piece) {
            self.trouble = Some(error);
            self.faults.raise();
            return Err(ConsoleFault);
        }
        Ok(())
    }
}

/// How many bytes are kept of the last piece on standard output.
const KEPT: usize = 160;

/// The front of the last piece that was put on a stream.
#[derive(Drop)]
struct LastPiece {
    bytes: [u8; KEPT],
    count: usize,
}

impl LastPiece {
    fn new() -> LastPiece {
        LastPiece {
            bytes: [0; KEPT],
            count: 0,
        }
    }

    fn keep(&mut self, piece: &[u8]) {
        let count = piece.len().min(KEPT);
        self.bytes[..count].copy_from_slice(&piece[..count]);
        self.count = count;
    }

    fn front(&self) -> &[u8] {
        &self.bytes[..self.count.min(KEPT)]
    }
}

/// The program's standard output and standard error. Nothing is kept back: a piece is written at once.
#[derive(Drop)]
pub struct StdConsole {
    out: Stream<Stdout>,
    err: Stream<Stderr>,
    last: LastPiece,
}

impl StdConsole {
    /// The streams that the program was given.
    pub fn new(rt: HostRuntime) -> StdConsole
        ensures out { (⟦<StdConsole as Console>⟧.state result).out.faults ≡ 0 }
        ensures err { (⟦<StdConsole as Console>⟧.state result).err.faults ≡ 0 }
    {
        StdConsole {
            out: Stream::new(rt.stdout()),
            err: Stream::new(rt.stderr()),
            last: LastPiece::new(),
        }
    }

    /// The front of the last piece on standard output, up to 160 bytes; none before the first one.
    pub fn last_piece(&self) -> &[u8] {
        self.last.front()
    }

    /// The error of the last put on a channel that failed, if one did.
    pub fn trouble(&self, channel: Channel) -> Option<io::Error>
        ensures out { channel ≡ Channel.Out → result ≡ self.now.out.trouble }
        ensures err { channel ≡ Channel.Err → result ≡ self.now.err.trouble }
    {
        match channel {
            Channel::Out => self.out.trouble,
            Channel::Err => self.err.trouble,
        }
    }
}

impl Console for StdConsole {
    ghost use Rattle.fault_count.specs.Schedule.{no_schedule};

    ghost state = { λ s. record {
      tells = false;
      out = record { text = []; faults = s.out.faults };
      err = record { text = []; faults = s.err.faults };
      is_scheduled = false;
      schedule = no_schedule;
      starved = 0;
    } };

    fn put(&mut self, channel: Channel, piece: &[u8]) -> Result<(), ConsoleFault> {
        match channel {
            Channel::Out => {
                self.last.keep(piece);
                self.out.put(piece)
            }
            Channel::Err => self.err.put(piece),
        }
    }
}

/// The program's standard input. Each take is one read of the buffer's size, which gives what has come.
#[derive(Drop)]
pub struct StdFeed {
    from: Stdin,
    faults: FaultCount,
    /// The error of the last take that failed.
    trouble: Option<io::Error>,
}

impl StdFeed {
    /// The stream that the program was given.
    pub fn new(rt: HostRuntime) -> StdFeed
        ensures { (⟦<StdFeed as Feed>⟧.state result).faults ≡ 0 }
    {
        StdFeed {
            from: rt.stdin(),
            faults: FaultCount::new(),
            trouble: None,
        }
    }

    /// The error of the last take that failed, if one did.
    pub fn trouble(&self) -> Option<io::Error>
        ensures { result ≡ self.now.trouble }
    {
        self.trouble
    }
}

/// Reads once. A read that is interrupted is made again.
fn read_some<R: Read>(reader: &mut R, buf: &mut [u8]) -> io::Result<usize>
    ensures count { IfOk result (λ n. n ≤ length buf.old) }
    ensures came { IfOk result (λ n. Consumes (R.remaining reader.old) (R.remaining reader.new) (take n buf.new)) }
    ensures end { IfOk result (λ n. n ≡ 0 → 0 < length buf.old → IsAtEnd (R.remaining reader.new)) }
    ensures again { IfErr result (λ e. error_kind e ≢ ErrorKind.Interrupted) }
    ensures none_lost { OnErr result (Consumes (R.remaining reader.old) (R.remaining reader.new) []) }
{
    for _ in 0..u64::MAX {
        match reader.read(buf) {
            Err(error) if error.kind() == ErrorKind::Interrupted => {}
            outcome => return outcome,
        }
    }
    Err(io::Error::from(ErrorKind::TimedOut))
}

impl Feed for StdFeed {
    ghost use Rattle.fault_count.specs.Schedule.{no_schedule};

    ghost state = { λ s. record {
      tells = false;
      left = [];
      faults = s.faults;
      is_scheduled = false;
      schedule = no_schedule;
    } };

    fn take(&mut self, buf: &mut [u8]) -> Result<usize, FeedFault> {
        match read_some(&mut self.from, buf) {
            Ok(count) => Ok(count),
            Err(error) => {
                self.trouble = Some(error);
                self.faults.raise();
                Err(FeedFault)
            }
        }
    }
}
