//! A read on its way into output and map.
ghost use Rattle.std.specs.Prelude.{◌≡◌, ◌+◌, ◌<◌, ◌≤◌, ◌^◌, true, false, length, IfOk, OnErr};
ghost use Rattle.faulty_source.specs.Got.{count_of, is_end};
ghost use Rattle.faulty_source.specs.SourceChanges.{Stays, Loses};
ghost use Rattle.faulty_source.specs.Journal.{Reading};
ghost use Rattle.transfer_token.specs.Tokens.{Fetches, IsCut, IsEndedCut, Spans};

use crate::token::{Loaded, Missed, Over, Request};
use block_list::block::Range;
use faulty_source::source::{Got, Source, SourceLost};

/// What came of a request. What is kept of it is a `T`: `Loaded`, or `Landed` once it is in the output.
pub enum Cut<T> {
    /// All of it was read.
    Whole(T),
    /// Whole sectors at its front were kept, and the rest was missed.
    Part(T, Missed),
    /// Nothing of it was kept.
    Nothing(Missed),
    /// The input ended after what was read, all of which is kept.
    Ended(T, Over),
    /// The input ended at its front or before.
    Empty(Over),
}

/// Reads what is requested, once, to the buffer's front, and cuts it: of a read that failed whole sectors are kept, and
/// of one that met the input's end all that it gave. Answers what the read gave, and what it is cut into.
pub fn fetch<S: Source>(
    source: &mut S,
    buf: &mut [u8],
    request: Request,
    sector: u64,
) -> Result<(Got, Cut<Loaded>), SourceLost>
    requires some { 0 < request.len }
    requires fits { request.len ≤ length buf.old }
    requires sector { 0 < sector }
    requires opened { (S.state source.old).is_open ≡ true }
    requires short { request.pos + request.len < 2 ^ 63 }
    ensures fetched { IfOk result (λ f. Fetches request sector f.0 f.1 buf.new (S.state source.old)
        (S.state source.new)) }
    ensures lost { OnErr result (Loses (S.state source.old) (S.state source.new)) }
    ensures same { length buf.new ≡ length buf.old }
    ensures source { Stays (S.state source.old) (S.state source.new) }
{
    let got = source.read_at(request.pos, &mut buf[..request.len])?;
    Ok((got, cut_read(request, got, sector)))
}

/// Cuts what a read gave.
fn cut_read(request: Request, got: Got, sector: u64) -> Cut<Loaded>
    requires some { 0 < request.len }
    requires few { count_of got ≤ request.len }
    requires ends { is_end got ≡ true → count_of got < request.len }
    requires sector { 0 < sector }
    requires short { request.pos + request.len < 2 ^ 63 }
    ensures cut { (r : Reading) → r.pos ≡ request.pos → r.asked ≡ request.len → length r.given ≡ count_of got
        → r.ended ≡ is_end got → IsCut sector r result }
    ensures spans { Spans request result }
{
    let (from, to) = (request.pos, request.pos + request.len as u64);
    let stop = from + got.count() as u64;
    if got.is_end() {
        return cut_ended(from, stop);
    }
    let at = stop / sector * sector;
    if stop == to {
        Cut::Whole(Loaded::of(Range { from, to }))
    } else if from < at {
        let loaded = Loaded::of(Range { from, to: at });
        let missed = Missed::of(Range { from: at, to });
        Cut::Part(loaded, missed)
    } else {
        Cut::Nothing(Missed::of(Range { from, to }))
    }
}

/// Cuts what a read gave that met the input's end.
fn cut_ended(from: u64, end: u64) -> Cut<Loaded>
    requires { from ≤ end }
    ensures { IsEndedCut from end result }
{
    let over = Over { end };
    if from < end {
        let loaded = Loaded::of(Range { from, to: end });
        Cut::Ended(loaded, over)
    } else {
        Cut::Empty(over)
    }
}
