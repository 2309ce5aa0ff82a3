//! How fast a rescue was lately.
ghost use Rattle.std.specs.Prelude.{◌≡◌, ◌<◌, IsTrue, [], drop, length};
ghost use Rattle.ddrescueshow_cli.specs.Rate.{begins_old, is_of_second, last_of, lines_at, lines_with, of_rescue, of_ten_seconds, rate_between, rate_from, tells_less};

use arrayvec::ArrayVec;
use std::marker::Model;

/// For how many seconds the rate is counted.
const LATELY: u64 = 10;

/// How much was rescued when.
#[derive(Clone, Copy, Debug, Default, PartialEq, Eq)]
pub struct Sample {
    pub seconds: u64,
    pub rescued: u64,
}

/// How many bytes a second were rescued from an earlier line up to a later one, if it is later.
fn rate_between(earlier: Sample, later: Sample) -> Option<u64>
    ensures { result ≡ rate_between earlier later }
{
    if later.seconds <= earlier.seconds {
        return None;
    }
    Some(later.rescued.saturating_sub(earlier.rescued) / (later.seconds - earlier.seconds))
}

/// Whether a line tells of less than the last one that counts.
fn tells_less(now: Sample, lines: &[Sample]) -> bool
    ensures { result ≡ tells_less now (last_of lines.now) }
{
    match lines.last() {
        Some(last) => now.seconds < last.seconds || now.rescued < last.rescued,
        None => false,
    }
}

/// Whether the last line that counts is of the same second.
fn is_of_second(now: Sample, lines: &[Sample]) -> bool
    ensures { result ≡ is_of_second now (last_of lines.now) }
{
    match lines.last() {
        Some(last) => last.seconds == now.seconds,
        None => false,
    }
}

/// Whether the first of these lines is ten seconds old.
fn begins_old(now: Sample, lines: &[Sample]) -> bool
    ensures { result ≡ begins_old now lines.now }
{
    match lines.first() {
        Some(first) => now.seconds.saturating_sub(first.seconds) >= LATELY,
        None => false,
    }
}

/// The rate at a line, from the first of the lines that count.
fn rate_from(now: Sample, lines: &[Sample]) -> Option<u64>
    ensures { result ≡ rate_from now lines.now }
{
    match lines.first() {
        Some(first) => rate_between(*first, now),
        None => None,
    }
}

/// The lines of the last ten seconds, of each second one, after one from before them, if there is one. The earliest is
/// at the front.
#[derive(Drop)]
pub(crate) struct Lately {
    samples: ArrayVec<Sample, 16>,
}

impl Model for Lately {
    ghost use Rattle.std.specs.Prelude.{List};
    ghost use Rattle.ddrescueshow_cli.specs.declared.rate.Sample.{Sample as Told};

    ghost Value = { List Told };

    ghost view = { λ l. l.samples.items };
}

impl Lately {
    /// No line yet.
    pub(crate) fn new() -> Lately
        ensures { result ≡ [] }
    {
        Lately {
            samples: ArrayVec::new(),
        }
    }

    /// Whether the line at the front isn't needed any more, since the next one is ten seconds old too.
    fn is_first_old(&self, now: Sample) -> bool
        ensures some { IsTrue result → 0 < length self.now }
        ensures old { result ≡ begins_old now (drop 1 self.now) }
    {
        let lines = self.samples.as_slice();
        if lines.is_empty() {
            return false;
        }
        let (_first, rest) = lines.split_at(1);
        begins_old(now, rest)
    }

    /// Drops the lines at the front that aren't needed any more.
    fn drop_old(&mut self, now: Sample)
        ensures { self.new ≡ of_ten_seconds now self.old }
    {
        while self.is_first_old(now) {
            self.samples.remove(0);
        }
    }

    /// Keeps a line, unless there is one of the same second.
    fn keep(&mut self, now: Sample)
        ensures { self.new ≡ lines_with now self.old }
    {
        if is_of_second(now, self.samples.as_slice()) {
            return;
        }
        // There is room: of each of the last ten seconds there is one line at most.
        let _fits = self.samples.try_push(now);
    }

    /// Drops all lines if a line is of another rescue than the last one, since it tells of less.
    fn begin_anew(&mut self, now: Sample)
        ensures { self.new ≡ of_rescue now self.old }
    {
        if tells_less(now, self.samples.as_slice()) {
            self.samples.clear();
        }
    }

    /// Goes on with a line. Says how many bytes a second were rescued from the earliest line that counts up to this
    /// one, if it is later.
    pub(crate) fn rate_at(&mut self, now: Sample) -> Option<u64>
        ensures rate { result ≡ rate_from now (lines_at now self.old) }
        ensures lines { self.new ≡ lines_with now (lines_at now self.old) }
    {
        self.begin_anew(now);
        self.drop_old(now);
        let rate = rate_from(now, self.samples.as_slice());
        self.keep(now);
        rate
    }
}
