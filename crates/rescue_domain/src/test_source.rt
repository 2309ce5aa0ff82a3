//! A source that gives of another what a test map says is finished.
ghost use Rattle.std.specs.Prelude.{◌≡◌, ◌+◌, ◌<◌, ◌^◌};
ghost use Rattle.rescue_domain.specs.Testing.{finished_front, state_seen};

use block_list::status::Status;
use block_list::tiles::Tiles;
use faulty_source::source::{Got, Source, SourceFault, SourceLost};

/// A source for trying how a rescue goes. It asks the source below it for all of each read. It gives what came of it
/// before the first position that isn't finished in a map, as a read that failed there; if all of it is finished, it
/// answers as that source did. A position at the map's end or past it isn't finished. All else is as that source does
/// it: what opens, its length, and how often something failed.
#[derive(Drop)]
pub struct TestSource<'a, S, T> {
    inner: &'a mut S,
    tiles: &'a T,
}

impl<'a, S: Source, T: Tiles> TestSource<'a, S, T> {
    /// A source that reads `inner`, and has what is finished in `tiles`.
    pub fn new(inner: &'a mut S, tiles: &'a T) -> TestSource<'a, S, T>
        ensures reference { result.inner.ghost_name ≡ inner.entry.ghost_name }
        ensures state { ⟦<TestSource<'a, S, T> as Source>⟧.state result
            ≡ state_seen inner.entry.ghost_name (T.statuses tiles.now) (S.state inner.old) }
    {
        TestSource { inner, tiles }
    }
}

impl<S: Source, T: Tiles> Source for TestSource<'_, S, T> {
    ghost use Rattle.rescue_domain.specs.Testing.{state_seen};

    ghost state = { λ s. state_seen s.inner.ghost_name (T.statuses s.tiles.now) (S.state s.inner.now) };

    fn open_input(&mut self, name: &str) -> Result<u64, SourceFault> {
        self.inner.open_input(name)
    }

    fn read_at(&mut self, pos: u64, buf: &mut [u8]) -> Result<Got, SourceLost> {
        let got = self.inner.read_at(pos, buf)?;
        let given = got.count();
        let front = count_finished(self.tiles, pos, given);
        if front < given {
            Ok(Got::Read(front))
        } else {
            Ok(got)
        }
    }
}

/// How many of `count` positions from one on come before the first that isn't finished.
pub fn count_finished<T: Tiles>(tiles: &T, pos: u64, count: usize) -> usize
    requires { pos + count < 2 ^ 63 }
    ensures { result ≡ finished_front (T.statuses tiles.now) pos count }
{
    match tiles.find_forward(pos, Status::Finished) {
        Some(range) if range.from == pos => count.min((range.to - pos) as usize),
        _ => 0,
    }
}
