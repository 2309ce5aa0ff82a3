//! A scene: an input, files, and the runs of the programs that go over them.
ghost use Rattle.std.specs.Prelude.{◌≡◌, false};
ghost use Rattle.memory_site.specs.MemoryState.{state_of};

use crate::drawn::draw;
use crate::part::play_part;
use crate::planned::plan;
use crate::verified::verify;
use ddrescue_cli::rescue::ddrescue;
use ddrescuelog_cli::ending::LogEnding;
use ddrescuelog_cli::log::ddrescuelog;
use faulty_source::bad_range::BadRange;
use memory_console::memory::{MemoryClock, MemoryConsole, MemoryFeed};
use memory_site::memory::MemorySite;
use memory_site::memory::stop::Left;
use memory_source::memory::MemorySource;
use option_words::words::Words;
use scene_text::blocks::{append_blocks, append_maps};
use scene_text::command::{FailingCall, Object, Stops, View};
use scene_text::kinds::KINDS;
use scene_text::paced::{PacedClock, PacedConsole, PacedSource};
use scene_text::refusal::{Refusal, refuse_starved};
use scene_text::results::{append_calls, append_console, append_ending, append_reads};
use scene_text::shown::{append_escaped, append_lines, append_shown};
use scene_text::stated::Stated;
use scene_text::values::BYTES_LIMIT;
use std::alloc::Global;
use std::cell::Cell;
use std::io::Write;
use std::rc::Rc;
use task_files::ending::Ending;

/// The most files that a scene puts there.
const FILES_LIMIT: usize = 256;

/// The clock of each run: its readings, and whether these go by the number of reads so far, which each line then begins
/// with.
#[derive(Drop)]
struct RunClock {
    readings: Vec<u64>,
    paced: bool,
}

impl RunClock {
    /// One without readings.
    fn none(alloc: Global) -> RunClock {
        RunClock {
            readings: Vec::new(alloc),
            paced: false,
        }
    }
}

/// The input and the files of a scene, and what it has said of them.
#[derive(Drop)]
pub(crate) struct Scene {
    alloc: Global,
    stated: Stated,
    /// The source of the runs so far. A new one is made for the next run if there is none.
    source: Option<MemorySource>,
    site: MemorySite,
    clock: RunClock,
    /// The calls of the next run's console that fail.
    silent: Vec<u64>,
    /// What the next run of ddrescuelog takes from its feed.
    feed: Vec<u8>,
    /// The takes of the feed that fail.
    unread: Vec<u64>,
    /// How many bytes it has stated.
    bytes: usize,
    /// How many files it has put under new names.
    files: usize,
}

/// Runs a rescue with a clock that reads by the number of reads so far.
fn rescue_paced(
    alloc: Global,
    words: &Words,
    source: &mut MemorySource,
    site: &mut MemorySite,
    readings: &[u64],
    console: &mut MemoryConsole,
) -> Result<Ending, Refusal>
    requires { (state_of site.old).is_drafting ≡ false }
{
    let reads = Rc::new(alloc, Cell::new(0))?;
    let mut paced = PacedSource::new(source, reads.clone()?);
    let mut clock = PacedClock::new(readings, reads.clone()?);
    let mut said = PacedConsole::new(console, reads);
    Ok(ddrescue(alloc, words, &mut paced, site, &mut clock, &mut said))
}

/// Runs a rescue with a clock.
/// If it finds no memory there is no answer: a scene can't ask for that.
fn rescue(
    alloc: Global,
    words: &Words,
    source: &mut MemorySource,
    site: &mut MemorySite,
    clock: &RunClock,
    console: &mut MemoryConsole,
) -> Result<Ending, Refusal>
    requires { (state_of site.old).is_drafting ≡ false }
{
    let starved = site.starved();
    let ending = if clock.paced {
        rescue_paced(alloc, words, source, site, &clock.readings, console)?
    } else {
        let mut clock = MemoryClock::new(Vec::from_slice(alloc, &clock.readings)?);
        ddrescue(alloc, words, source, site, &mut clock, console)
    };
    refuse_starved(ending.code(), starved, site, console)?;
    Ok(ending)
}

/// Runs ddrescuelog. If it finds no memory there is no answer.
fn read_maps(
    alloc: Global,
    words: &Words,
    site: &mut MemorySite,
    feed: &mut MemoryFeed,
    console: &mut MemoryConsole,
) -> Result<LogEnding, Refusal>
    requires { (state_of site.old).is_drafting ≡ false }
{
    let starved = site.starved();
    let ending = ddrescuelog(alloc, words, site, feed, console);
    refuse_starved(ending.code(), starved, site, console)?;
    Ok(ending)
}

impl Scene {
    /// An empty source, and no file.
    pub(crate) fn new(alloc: Global) -> Scene {
        Scene {
            alloc,
            stated: Stated::new(alloc),
            source: None,
            site: MemorySite::new(alloc),
            clock: RunClock::none(alloc),
            silent: Vec::new(alloc),
            feed: Vec::new(alloc),
            unread: Vec::new(alloc),
            bytes: 0,
            files: 0,
        }
    }

    /// Counts stated bytes, unless they are too many.
    pub(crate) fn count_bytes(&mut self, count: usize) -> Result<(), Refusal> {
        let bytes = self.bytes.saturating_add(count);
        if bytes > BYTES_LIMIT {
            return Err(Refusal::NotUnderstood);
        }
        self.bytes = bytes;
        Ok(())
    }

    /// States the input's bytes, unless the scene would then state too many.
    pub(crate) fn set_source(&mut self, bytes: Vec<u8>) -> Result<(), Refusal> {
        self.count_bytes(bytes.len())?;
        self.stated.set_bytes(bytes);
        self.source = None;
        Ok(())
    }

    /// Lets reads meet the end at this position, unless it lies past the input's bytes.
    pub(crate) fn set_end(&mut self, at: u64) -> Result<(), Refusal> {
        self.stated.set_end(at)?;
        self.source = None;
        Ok(())
    }

    /// Adds a bad range, if it isn't empty and lies past the others.
    pub(crate) fn add_bad(&mut self, range: BadRange) -> Result<(), Refusal> {
        self.stated.add_bad(range)?;
        self.source = None;
        Ok(())
    }

    /// Sets how many reads the journal holds, unless these are too many.
    pub(crate) fn set_room(&mut self, room: usize) -> Result<(), Refusal> {
        self.stated.set_room(room)?;
        self.source = None;
        Ok(())
    }

    /// Makes an object's calls of these numbers fail.
    pub(crate) fn fail_calls(&mut self, object: Object, numbers: &[u64]) -> Result<(), Refusal> {
        match object {
            Object::Source => {
                self.stated.fail_calls(numbers)?;
                self.source = None;
                Ok(())
            }
            Object::Console => {
                self.silent.extend_from_slice(numbers)?;
                Ok(())
            }
            Object::Feed => {
                self.unread.extend_from_slice(numbers)?;
                Ok(())
            }
        }
    }

    /// States what the next run of ddrescuelog takes from its feed, unless the scene would then state too many bytes.
    pub(crate) fn set_feed(&mut self, bytes: Vec<u8>) -> Result<(), Refusal> {
        self.count_bytes(bytes.len())?;
        self.feed = bytes;
        Ok(())
    }

    /// Sets the readings of the clock of each later run.
    pub(crate) fn set_clock(&mut self, readings: Vec<u64>, paced: bool) {
        self.clock = RunClock { readings, paced };
    }

    /// Makes these calls of the site fail.
    pub(crate) fn fail_site_calls(&mut self, failing: &[FailingCall]) -> Result<(), Refusal> {
        for call in failing {
            self.site.fail_call_after(call.number, call.steps)?;
        }
        Ok(())
    }

    /// Puts a file under a name, unless the scene would then have too many files or state too many bytes.
    pub(crate) fn put_file(
        &mut self,
        name: &str,
        bytes: &[u8],
        regular: bool,
    ) -> Result<(), Refusal> {
        let files = self.files_with(name)?;
        self.count_bytes(bytes.len())?;
        self.place_file(name, bytes, regular)?;
        self.files = files;
        Ok(())
    }

    /// How many files there are with one more, unless they are too many.
    fn files_with(&self, name: &str) -> Result<usize, Refusal> {
        if self.site.file(name).is_some() {
            return Ok(self.files);
        }
        if self.files >= FILES_LIMIT {
            return Err(Refusal::NotUnderstood);
        }
        Ok(self.files + 1)
    }

    /// Puts a file there that was counted before.
    pub(crate) fn place_file(
        &mut self,
        name: &str,
        bytes: &[u8],
        regular: bool,
    ) -> Result<(), Refusal> {
        self.site.put_file(name, bytes, regular)?;
        Ok(())
    }

    /// Runs a rescue, and adds its results.
    pub(crate) fn run(&mut self, words: &Words, out: &mut Vec<u8>) -> Result<(), Refusal> {
        if self.site.is_drafting() {
            return Err(Refusal::NotUnderstood);
        }
        let mut source = match self.source.take() {
            Some(source) => source,
            None => self.stated.make_source(self.alloc)?,
        };
        let mut console = self.make_console()?;
        let read = source.journal().len();
        let made = self.site.made();
        let ending = rescue(
            self.alloc,
            words,
            &mut source,
            &mut self.site,
            &self.clock,
            &mut console,
        )?;
        self.silent.clear();
        append_reads(out, source.journal().get(read..).unwrap_or(&[]))?;
        append_calls(out, &self.site, made)?;
        append_console(out, &console)?;
        append_ending(out, &ending, ending.code())?;
        self.source = Some(source);
        Ok(())
    }

    /// The console of the next run.
    fn make_console(&self) -> Result<MemoryConsole, Refusal> {
        let mut console = MemoryConsole::new(self.alloc);
        for number in &self.silent {
            console.fail_call(*number)?;
        }
        Ok(console)
    }

    /// The feed of the next run of ddrescuelog.
    fn make_feed(&self) -> Result<MemoryFeed, Refusal> {
        let bytes = Vec::from_slice(self.alloc, self.feed.as_slice())?;
        let mut feed = MemoryFeed::new(self.alloc, bytes);
        for number in &self.unread {
            feed.fail_call(*number)?;
        }
        Ok(feed)
    }

    /// Runs ddrescuelog, and adds its results.
    pub(crate) fn log(&mut self, words: &Words, out: &mut Vec<u8>) -> Result<(), Refusal> {
        if self.site.is_drafting() {
            return Err(Refusal::NotUnderstood);
        }
        let mut feed = self.make_feed()?;
        let mut console = self.make_console()?;
        let made = self.site.made();
        let ending = read_maps(self.alloc, words, &mut self.site, &mut feed, &mut console)?;
        self.feed.clear();
        self.unread.clear();
        self.silent.clear();
        append_calls(out, &self.site, made)?;
        append_console(out, &console)?;
        append_ending(out, &ending, ending.code())
    }

    /// Runs ddrescuepart, and adds its results.
    pub(crate) fn part(&mut self, words: &Words, out: &mut Vec<u8>) -> Result<(), Refusal> {
        let mut source = match self.source.take() {
            Some(source) => source,
            None => self.stated.make_source(self.alloc)?,
        };
        let mut console = self.make_console()?;
        play_part(self.alloc, words, &mut source, &mut console, out)?;
        self.silent.clear();
        self.source = Some(source);
        Ok(())
    }

    /// Runs ddrescueverify, and adds its results.
    pub(crate) fn verify(&mut self, words: &Words, out: &mut Vec<u8>) -> Result<(), Refusal> {
        if self.site.is_drafting() {
            return Err(Refusal::NotUnderstood);
        }
        let mut source = match self.source.take() {
            Some(source) => source,
            None => self.stated.make_source(self.alloc)?,
        };
        let mut console = self.make_console()?;
        let read = source.journal().len();
        let made = self.site.made();
        let ending = verify(self.alloc, words, &mut source, &mut self.site, &mut console)?;
        self.silent.clear();
        append_reads(out, source.journal().get(read..).unwrap_or(&[]))?;
        append_calls(out, &self.site, made)?;
        append_console(out, &console)?;
        append_ending(out, &ending, ending.code())?;
        self.source = Some(source);
        Ok(())
    }

    /// Runs ddrescueplan, and adds its results.
    pub(crate) fn plan(&mut self, words: &Words, out: &mut Vec<u8>) -> Result<(), Refusal> {
        let mut console = self.make_console()?;
        let made = self.site.made();
        let ending = plan(self.alloc, words, &mut self.site, &mut console)?;
        self.silent.clear();
        append_calls(out, &self.site, made)?;
        append_console(out, &console)?;
        append_ending(out, &ending, ending.code())
    }

    /// Runs ddrescueshow, and adds its results.
    pub(crate) fn draw(&mut self, words: &Words, out: &mut Vec<u8>) -> Result<(), Refusal> {
        let mut console = self.make_console()?;
        let made = self.site.made();
        let ending = draw(self.alloc, words, &mut self.site, &mut console)?;
        self.silent.clear();
        append_calls(out, &self.site, made)?;
        append_console(out, &console)?;
        append_ending(out, &ending, ending.code())
    }

    /// Puts the site there that a stop leaves.
    pub(crate) fn stop(&mut self, calls: usize, kind: Left) -> Result<(), Refusal> {
        if calls > self.site.made() {
            return Err(Refusal::NotUnderstood);
        }
        self.site = self.site.stopped_at(self.alloc, calls, kind)?;
        Ok(())
    }

    /// Adds what each stop leaves, and what a rescue makes of it.
    pub(crate) fn stops(&self, stops: &Stops, out: &mut Vec<u8>) -> Result<(), Refusal> {
        for calls in 0..=self.site.made() {
            self.stops_at(stops, calls, out)?;
        }
        Ok(())
    }

    fn stops_at(&self, stops: &Stops, calls: usize, out: &mut Vec<u8>) -> Result<(), Refusal> {
        for (name, kind) in KINDS {
            write!(out, "  {calls} {name}: ")?;
            self.go_on(stops, calls, kind, out)?;
        }
        Ok(())
    }

    /// Goes on with a rescue after a stop, and adds the rest of its line.
    fn go_on(
        &self,
        stops: &Stops,
        calls: usize,
        kind: Left,
        out: &mut Vec<u8>,
    ) -> Result<(), Refusal> {
        if calls > self.site.made() {
            return Err(Refusal::NotUnderstood);
        }
        let mut site = self.site.stopped_at(self.alloc, calls, kind)?;
        let mut source = self.stated.make_source(self.alloc)?;
        write!(out, "left ")?;
        append_blocks(self.alloc, out, site.file(stops.map.as_str()))?;
        let mut console = MemoryConsole::new(self.alloc);
        let ending = rescue(
            self.alloc,
            &stops.words,
            &mut source,
            &mut site,
            &RunClock::none(self.alloc),
            &mut console,
        )?;
        let reads = source.journal().len();
        write!(out, "; ends {ending:?}; {reads} reads; map ")?;
        append_blocks(self.alloc, out, site.file(stops.map.as_str()))?;
        write!(out, "; out ")?;
        append_shown(out, site.file(stops.output.as_str()))?;
        out.push(b'\n')?;
        Ok(())
    }

    /// Adds what each stop leaves of files.
    pub(crate) fn left(&self, names: &[String], out: &mut Vec<u8>) -> Result<(), Refusal> {
        for calls in 0..=self.site.made() {
            self.left_at(names, calls, out)?;
        }
        Ok(())
    }

    fn left_at(&self, names: &[String], calls: usize, out: &mut Vec<u8>) -> Result<(), Refusal> {
        if calls > self.site.made() {
            return Err(Refusal::NotUnderstood);
        }
        for (kind_name, kind) in KINDS {
            let site = self.site.stopped_at(self.alloc, calls, kind)?;
            write!(out, "  {calls} {kind_name}:")?;
            append_maps(self.alloc, out, &site, names)?;
        }
        Ok(())
    }

    /// Adds what files hold.
    pub(crate) fn view(
        &self,
        view: View,
        names: &[String],
        out: &mut Vec<u8>,
    ) -> Result<(), Refusal> {
        for name in names {
            self.view_one(view, name.as_str(), out)?;
        }
        Ok(())
    }

    fn view_one(&self, view: View, name: &str, out: &mut Vec<u8>) -> Result<(), Refusal> {
        let file = self.site.file(name);
        if let (View::Print, Some(text)) = (view, file)
            && !text.is_empty()
        {
            return append_lines(out, text, b"  |", b"  ~");
        }
        out.extend_from_slice(b"  ")?;
        append_escaped(out, name.as_bytes())?;
        out.extend_from_slice(b": ")?;
        match view {
            View::Show | View::Print => append_shown(out, file)?,
            View::Blocks => append_blocks(self.alloc, out, file)?,
        }
        out.push(b'\n')?;
        Ok(())
    }
}
