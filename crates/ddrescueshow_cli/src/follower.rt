//! A rescue that is followed: its lines, and what is put of each.
ghost use Rattle.std.specs.Prelude.{◌≡◌, ℕ, ◌-◌, ◌<◌, ◌≤◌, true, false, [], ◌∷◌, length, take, IfErr, IfOk, IfSome, OnOk};
ghost use Rattle.std.specs.List.{position};
ghost use Rattle.mapfile_text.specs.Lines.{is_newline};
ghost use Rattle.rescue_console.specs.Speaking.{SpeaksOn, out_pieces};
ghost use Rattle.ddrescueshow_cli.specs.Progress.{IsSaid, IsSizeAfter, after_figures, figures_text, passed_text};
ghost use Rattle.ddrescueshow_cli.specs.PutLines.{Breaks, BreaksOff, Goes, IsUnfinished, StopsIn, known_at_first};
ghost use Rattle.ddrescueshow_cli.specs.FollowSteps.{FindsEnd, Finishes, GoesOn, GoesRound, IsPart, IsTakeCause, LosesText, PutsRest, PutsText, stage_of};

use crate::follow::FollowEnding;
use crate::progress::{passed_text, text_of_figures};
use crate::rate::{Lately, Sample};
use block_list::tiles::NoMemory;
use rescue_console::console::{Channel, Console};
use rescue_console::feed::Feed;
use rescue_lines::lines::{Figures, read_line, read_opening};
use std::alloc::Global;

/// How many bytes are taken at once, and the length of the longest line. A longer one passes in pieces.
const LONGEST: usize = 4096;

/// What is known after some lines.
#[derive(Drop)]
struct Known {
    /// A line of figures is up on the terminal.
    is_up: bool,
    /// The size of the domain, if a line said it.
    size: Option<u64>,
    /// The lines of figures from which the rate is counted.
    lately: Lately,
}

/// Bytes that go on with a line.
#[derive(Clone, Copy)]
struct Part {
    len: usize,
    /// The line is whole with them.
    whole: bool,
}

/// Where the first newline of bytes is, if they have one.
fn newline_in(bytes: &[u8]) -> Option<usize>
    ensures place { result ≡ position is_newline bytes.now }
    ensures within { IfSome result (λ at. at < length bytes.now) }
{
    bytes.iter().position(|byte| *byte == b'\n')
}

/// The part of bytes that goes on with a line that has this much room. There is at least one byte.
fn part_of(bytes: &[u8], room: usize) -> Part
    requires some { 0 < length bytes.now }
    requires room { 0 < room }
    ensures some { 0 < result.len }
    ensures within { result.len ≤ length bytes.now }
    ensures part { IsPart room bytes.now result.len result.whole }
{
    let most = room.min(bytes.len());
    let (piece, _rest) = bytes.split_at(most);
    match newline_in(piece) {
        Some(at) => Part {
            len: at + 1,
            whole: true,
        },
        None => Part {
            len: most,
            whole: most == room,
        },
    }
}

/// The size of the domain after a line.
fn size_after(line: &[u8], size: Option<u64>) -> Option<u64>
    ensures { IsSizeAfter line.now size result }
{
    match read_opening(line) {
        Some(opening) => Some(opening),
        None => size,
    }
}

/// Puts a text on standard output.
fn put<P: Console>(console: &mut P, text: &[u8]) -> Result<(), FollowEnding>
    ensures whole { OnOk result (SpeaksOn (out_pieces (text.now ∷ [])) true true (P.state console.old)
        (P.state console.new)) }
    ensures broken { IfErr result (λ e. (e ≡ FollowEnding.ConsoleFault)
        × SpeaksOn (out_pieces (text.now ∷ [])) true false (P.state console.old) (P.state console.new)) }
{
    match console.put(Channel::Out, text) {
        Ok(()) => Ok(()),
        Err(_) => Err(FollowEnding::ConsoleFault),
    }
}

/// What is put of lines, one after another.
#[derive(Drop)]
struct Teller {
    alloc: Global,
    /// Standard output is a terminal.
    terminal: bool,
    known: Known,
}

impl Teller {
    /// What is put of a line, which is no rescue's. It may say the size of the domain.
    fn passed(&mut self, line: &[u8]) -> Result<Vec<u8>, NoMemory>
        ensures text { IfOk result (λ text. text.items ≡ passed_text self.old.known.is_up line.now) }
        ensures up { OnOk result (self.new.known.is_up ≡ false) }
        ensures size { OnOk result (IsSizeAfter line.now self.old.known.size self.new.known.size) }
        ensures lately { self.new.known.lately ≡ self.old.known.lately }
        ensures terminal { self.new.terminal ≡ self.old.terminal }
    {
        let text = passed_text(self.alloc, self.known.is_up, line)?;
        self.known.is_up = false;
        self.known.size = size_after(line, self.known.size);
        Ok(text)
    }

    /// What is put of a line, which is a rescue's.
    fn shown(&mut self, figures: &Figures) -> Result<Vec<u8>, NoMemory>
        ensures text { IfOk result (λ text. text.items
            ≡ figures_text self.old.terminal self.old.known figures.now) }
        ensures known { self.new.known ≡ after_figures self.old.terminal self.old.known figures.now }
        ensures terminal { self.new.terminal ≡ self.old.terminal }
    {
        let rate = self.known.lately.rate_at(Sample {
            seconds: figures.seconds,
            rescued: figures.rescued,
        });
        self.known.is_up = self.terminal;
        let text = text_of_figures(self.alloc, self.terminal, self.known.size, rate, figures)?;
        Ok(text)
    }

    /// What is put of a line.
    fn said(&mut self, line: &[u8]) -> Result<Vec<u8>, NoMemory>
        ensures said { IfOk result (λ text. IsSaid self.old.terminal self.old.known self.new.known line.now
            text.items) }
        ensures terminal { self.new.terminal ≡ self.old.terminal }
    {
        let Some(figures) = read_line(line) else {
            let text = self.passed(line)?;
            return Ok(text);
        };
        let text = self.shown(&figures)?;
        Ok(text)
    }

    /// Puts what is put of a line.
    fn put_line<P: Console>(&mut self, line: &[u8], console: &mut P) -> Result<(), FollowEnding>
        ensures puts { OnOk result (PutsText self.old.terminal line.now true self.old.known self.new.known
            (P.state console.old) (P.state console.new)) }
        ensures loses { IfErr result (λ e. LosesText self.old.terminal line.now e self.old.known (P.state console.old)
            (P.state console.new)) }
        ensures terminal { self.new.terminal ≡ self.old.terminal }
    {
        let Ok(text) = self.said(line) else {
            return Err(FollowEnding::NoMemory);
        };
        put(console, &text)?;
        Ok(())
    }
}

/// A rescue that is followed.
#[derive(Drop)]
pub(crate) struct Follower {
    teller: Teller,
    /// The line so far.
    line: Vec<u8>,
}

impl Follower {
    /// Before the first line.
    pub(crate) fn new(alloc: Global, terminal: bool) -> Follower
        ensures line { result.line.items ≡ [] }
        ensures known { result.teller.known ≡ known_at_first }
        ensures terminal { result.teller.terminal ≡ terminal }
    {
        Follower {
            teller: Teller {
                alloc,
                terminal,
                known: Known {
                    is_up: false,
                    size: None,
                    lately: Lately::new(),
                },
            },
            line: Vec::new(alloc),
        }
    }

    /// Goes on with bytes up to the end of the line, and puts the line if it is whole. Says how many these are.
    fn add<P: Console>(&mut self, bytes: &[u8], console: &mut P) -> Result<usize, FollowEnding>
        requires some { 0 < length bytes.now }
        requires unfinished { IsUnfinished self.old.line.items }
        ensures some { IfOk result (λ n. 0 < n) }
        ensures within { IfOk result (λ n. n ≤ length bytes.now) }
        ensures goes { IfOk result (λ n. GoesOn (take n bytes.now) self.old self.new (P.state console.old)
            (P.state console.new)) }
        ensures stops { IfErr result (λ e. StopsIn self.old.teller.terminal bytes.now e
            (stage_of self.old (P.state console.old)) (P.state console.new)) }
    {
        let part = part_of(bytes, LONGEST - self.line.len());
        let (piece, _rest) = bytes.split_at(part.len);
        let Ok(()) = self.line.extend_from_slice(piece) else {
            return Err(FollowEnding::NoMemory);
        };
        if !part.whole {
            return Ok(part.len);
        }
        self.teller.put_line(&self.line, console)?;
        self.line.clear();
        Ok(part.len)
    }

    /// Goes on with bytes, and puts each line that is whole.
    fn add_all<P: Console>(&mut self, bytes: &[u8], console: &mut P) -> Result<(), FollowEnding>
        requires { IsUnfinished self.old.line.items }
        ensures goes { OnOk result (GoesOn bytes.now self.old self.new (P.state console.old) (P.state console.new)) }
        ensures stops { IfErr result (λ e. StopsIn self.old.teller.terminal bytes.now e
            (stage_of self.old (P.state console.old)) (P.state console.new)) }
    {
        let mut rest = bytes;
        while !rest.is_empty() {
            let count = self.add(rest, console)?;
            let (_added, after) = rest.split_at(count);
            rest = after;
        }
        Ok(())
    }

    /// Takes what has come, by one take, and puts each line that is whole with it. Says whether more may come.
    fn take_some<I: Feed, P: Console>(
        &mut self,
        feed: &mut I,
        console: &mut P,
    ) -> Result<bool, FollowEnding>
        requires { IsUnfinished self.old.line.items }
        ensures takes { OnOk result ((I.state feed.new).faults ≡ (I.state feed.old).faults) }
        ensures cause { IfErr result (λ e. IsTakeCause e (I.state feed.old) (I.state feed.new)) }
        ensures goes { IfOk result (λ more. GoesRound more (I.state feed.old) (I.state feed.new) self.old self.new
            (P.state console.old) (P.state console.new)) }
        ensures breaks { IfErr result (λ e. Breaks self.old.teller.terminal e (I.state feed.old) (I.state feed.new)
            (stage_of self.old (P.state console.old)) (P.state console.new)) }
    {
        let mut buffer = [0u8; LONGEST];
        let Ok(count) = feed.take(&mut buffer) else {
            return Err(FollowEnding::FeedFault);
        };
        if count == 0 {
            return Ok(false);
        }
        let (piece, _rest) = buffer.split_at(count);
        self.add_all(piece, console)?;
        Ok(true)
    }

    /// Takes all that comes. What one take gave is put before the next one is made.
    fn take_all<I: Feed, P: Console>(
        &mut self,
        feed: &mut I,
        console: &mut P,
    ) -> Result<(), FollowEnding>
        requires { IsUnfinished self.old.line.items }
        ensures takes { OnOk result ((I.state feed.new).faults ≡ (I.state feed.old).faults) }
        ensures cause { IfErr result (λ e. IsTakeCause e (I.state feed.old) (I.state feed.new)) }
        ensures goes { OnOk result (FindsEnd (I.state feed.old) (I.state feed.new) self.old self.new
            (P.state console.old) (P.state console.new)) }
        ensures breaks { IfErr result (λ e. BreaksOff self.old.teller.terminal e (I.state feed.old) (I.state feed.new)
            (stage_of self.old (P.state console.old)) (P.state console.new)) }
    {
        for _ in 0..u64::MAX {
            let more = self.take_some(feed, console)?;
            if !more {
                return Ok(());
            }
        }
        // No feed gives this much.
        Err(FollowEnding::NoMemory)
    }

    /// Puts the last line, if it isn't whole.
    fn put_rest<P: Console>(&mut self, console: &mut P) -> Result<(), FollowEnding>
        requires { IsUnfinished self.old.line.items }
        ensures puts { OnOk result (PutsRest self.old.teller.terminal true (stage_of self.old (P.state console.old))
            self.new.teller.known (P.state console.new)) }
        ensures finishes { IfErr result (λ e. Finishes self.old.teller.terminal e
            (stage_of self.old (P.state console.old)) (P.state console.new)) }
    {
        if self.line.is_empty() {
            return Ok(());
        }
        self.teller.put_line(&self.line, console)?;
        Ok(())
    }

    /// Puts the last line, and ends it.
    fn finish<P: Console>(&mut self, console: &mut P) -> Result<(), FollowEnding>
        requires { IsUnfinished self.old.line.items }
        ensures done { OnOk result (Finishes self.old.teller.terminal FollowEnding.Done
            (stage_of self.old (P.state console.old)) (P.state console.new)) }
        ensures stops { IfErr result (λ e. Finishes self.old.teller.terminal e
            (stage_of self.old (P.state console.old)) (P.state console.new)) }
    {
        self.put_rest(console)?;
        if !self.teller.known.is_up {
            return Ok(());
        }
        put(console, b"\n")?;
        Ok(())
    }

    /// Takes all lines, and puts what is put of each.
    pub(crate) fn follow<I: Feed, P: Console>(
        &mut self,
        feed: &mut I,
        console: &mut P,
    ) -> FollowEnding
        requires { IsUnfinished self.old.line.items }
        ensures cause { IsTakeCause result (I.state feed.old) (I.state feed.new) }
        ensures goes { Goes self.old.teller.terminal result (I.state feed.old) (I.state feed.new)
            (stage_of self.old (P.state console.old)) (P.state console.new) }
    {
        match self.take_all(feed, console) {
            Ok(()) => match self.finish(console) {
                Ok(()) => FollowEnding::Done,
                Err(ending) => ending,
            },
            Err(ending) => ending,
        }
    }
}
