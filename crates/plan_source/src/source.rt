//! A source that says each of its reads on a console.
ghost use Rattle.std.specs.Prelude.{◌≡◌, ◌+◌, ◌<◌, ◌≤◌, ◌^◌, true, IsTrue, [], ◌∷◌, All};
ghost use Rattle.plan_source.specs.Printing.{HasPrinted, AreCounted};
ghost use Rattle.plan_source.specs.Answering.{IsSeenIn, got_at};

use crate::line::line_of;
use crate::loss::PlanLoss;
use block_list::tiles::Tiles;
use fault_count::FaultCount;
use faulty_source::journal::ReadEntry;
use faulty_source::source::{Got, Source, SourceFault, SourceLost};
use rescue_console::console::{Channel, Console, ConsoleFault};
use rescue_domain::test_source::count_finished;
use std::alloc::Global;
use std::marker::{Brand, PhantomData};

/// What a console told when a source on it was made. Proofs alone know it.
pub trait Origin {
    ghost use Rattle.std.specs.Prelude.{Bool};
    ghost use Rattle.rescue_console.specs.ConsoleState.{ConsoleState};

    ghost is_known: { Bool };

    ghost start: { ConsoleState };
}

impl Origin for Brand {
    ghost use Rattle.std.specs.Prelude.{false};
    ghost use Rattle.plan_source.specs.Printing.{unknown};

    ghost is_known = { false };

    ghost start = { unknown };
}

/// A source of zeros, of which as much is given as a test map has finished. It says each read on the first channel of a
/// console before it answers, and keeps a journal of them; what the console got is the lines of the journal, in order.
/// After a read whose line couldn't be put, which is the journal's last one, all reads are lost: so what may be there
/// of the line is told of a read that was answered. Its input is open from the start.
#[derive(Drop)]
pub struct PlanSource<'a, C: Console, T: Tiles, O: Origin = Brand> {
    length: u64,
    tiles: T,
    console: &'a mut C,
    entries: Vec<ReadEntry>,
    lost: Option<PlanLoss>,
    name: Vec<u8>,
    opened: bool,
    /// No line is being put: what is known of the console is known then.
    idle: bool,
    opens: FaultCount,
    faults: FaultCount,
    losses: FaultCount,
    origin: PhantomData<O>,
    ghost short: { length < 2 ^ 63 },
    ghost seen: { All (IsSeenIn length (T.statuses tiles)) entries.items },
    ghost printed: { IsTrue O.is_known → idle ≡ true
        → HasPrinted O.start (C.state console.now) entries.items lost },
    ghost counted: { AreCounted lost losses },
}

/// What a read of an input with a length gives.
fn got_at<T: Tiles>(length: u64, tiles: &T, pos: u64, asked: usize) -> Got
    requires { pos + asked < 2 ^ 63 }
    ensures { result ≡ got_at length (T.statuses tiles.now) pos asked }
{
    let there = length.saturating_sub(pos).min(asked as u64) as usize;
    let given = count_finished(tiles, pos, there);
    if given == there && there < asked {
        Got::End(given)
    } else {
        Got::Read(given)
    }
}

/// Puts the line of a read. Says why those after it are lost, if they are.
fn say<C: Console>(console: &mut C, entry: &ReadEntry) -> Option<PlanLoss>
    ensures printed { HasPrinted (C.state console.old) (C.state console.new) (entry.now ∷ []) result }
    ensures counted { AreCounted result 0 }
{
    match console.put(Channel::Out, &line_of(entry)) {
        Ok(()) => None,
        Err(ConsoleFault) => Some(PlanLoss::Console),
    }
}

impl<'a, C: Console, T: Tiles> PlanSource<'a, C, T> {
    ghost use Rattle.plan_source.specs.Answering.{plan_source_state};

    /// A source of `length` bytes.
    pub fn new(alloc: Global, length: u64, tiles: T, console: &'a mut C) -> PlanSource<'a, C, T>
        requires { length < 2 ^ 63 }
        ensures reference { result.console.ghost_name ≡ console.entry.ghost_name }
        ensures state { ⟦<PlanSource<'a, C, T> as Source>⟧.state result
            ≡ plan_source_state length (T.statuses tiles) console.entry.ghost_name [] [] true 0 0 0 }
    {
        PlanSource::since(alloc, length, tiles, console)
    }
}

impl<'a, C: Console, T: Tiles, O: Origin> PlanSource<'a, C, T, O> {
    ghost use Rattle.plan_source.specs.Answering.{plan_source_state};

    /// A source of `length` bytes, on a console of which it is known what it tells now.
    pub fn since(
        alloc: Global,
        length: u64,
        tiles: T,
        console: &'a mut C,
    ) -> PlanSource<'a, C, T, O>
        requires short { length < 2 ^ 63 }
        requires start { IsTrue O.is_known → O.start ≡ C.state console.old }
        ensures reference { result.console.ghost_name ≡ console.entry.ghost_name }
        ensures state { ⟦<PlanSource<'a, C, T, O> as Source>⟧.state result
            ≡ plan_source_state length (T.statuses tiles) console.entry.ghost_name [] [] true 0 0 0 }
    {
        PlanSource {
            length,
            tiles,
            console,
            entries: Vec::new(alloc),
            lost: None,
            name: Vec::new(alloc),
            opened: true,
            idle: true,
            opens: FaultCount::new(),
            faults: FaultCount::new(),
            losses: FaultCount::new(),
            origin: PhantomData,
        }
    }

    /// Why each read from now on is lost, if it is.
    pub fn lost(&self) -> Option<PlanLoss>
        ensures { result ≡ self.now.lost }
    {
        self.lost
    }

    /// The console, at the source's end.
    pub fn into_console(self) -> &'a mut C
        ensures reference { result.ghost_name ≡ self.entry.console.ghost_name }
        ensures now { result.now ≡ self.entry.console.now }
    {
        let PlanSource {
            length: _,
            tiles: _,
            console,
            entries: _,
            lost: _,
            name: _,
            opened: _,
            idle: _,
            opens: _,
            faults: _,
            losses: _,
            origin: _,
        } = self;
        console
    }

    /// The reads that were answered, in order.
    pub fn journal(&self) -> &[ReadEntry]
        ensures { result.now ≡ self.now.entries.items }
    {
        &self.entries
    }
}

impl<C: Console, T: Tiles, O: Origin> Source for PlanSource<'_, C, T, O> {
    ghost use Rattle.std.specs.Prelude.{◌&&◌};
    ghost use Rattle.plan_source.specs.Answering.{plan_source_state};

    ghost state = { λ s. plan_source_state s.length (T.statuses s.tiles) s.console.ghost_name s.entries.items
        s.name.items (s.opened && s.idle) s.opens s.faults s.losses };

    /// Every name opens. It faults for lack of memory alone, since the name is kept.
    fn open_input(&mut self, name: &str) -> Result<u64, SourceFault> {
        self.opens.raise();
        self.opened = false;
        self.name.clear();
        let kept = self.name.extend_from_slice(name.as_bytes());
        if kept.is_err() || !self.idle {
            self.faults.raise();
            return Err(SourceFault);
        }
        self.opened = true;
        Ok(self.length)
    }

    /// A read is lost if there is no memory for its entry, and so is each after it, and each after one whose line
    /// couldn't be put.
    fn read_at(&mut self, pos: u64, buf: &mut [u8]) -> Result<Got, SourceLost> {
        if self.lost.is_some() {
            self.losses.raise();
            return Err(SourceLost);
        }
        let got = got_at(self.length, &self.tiles, pos, buf.len());
        let entry = ReadEntry {
            pos,
            asked: buf.len(),
            given: got.count(),
            ended: got.is_end(),
        };
        let Ok(()) = self.entries.reserve(1) else {
            self.lost = Some(PlanLoss::Memory);
            self.losses.raise();
            return Err(SourceLost);
        };
        self.idle = false;
        self.lost = say(self.console, &entry);
        let Ok(()) = self.entries.push(entry) else {
            unreachable!()
        };
        self.idle = true;
        buf.fill(0);
        Ok(got)
    }
}
