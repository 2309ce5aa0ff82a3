//! A read between two readings of the clock.
ghost use Rattle.std.specs.Prelude.{◌≡◌, ℕ, ◌+◌, ◌<◌, ◌≤◌, ◌^◌, ◌∷◌, [], true, length, IfOk, OnErr};
ghost use Rattle.faulty_source.specs.SourceChanges.{Stays, Loses};
ghost use Rattle.rescue_console.specs.ClockState.{Keeps, Reads};
ghost use Rattle.transfer_token.specs.Tokens.{Spans};
ghost use Rattle.rescue_core.specs.TurnParts.{IsTimed};

use faulty_source::source::{Got, Source, SourceLost};
use rescue_console::clock::Clock;
use transfer_token::fetch::{Cut, fetch};
use transfer_token::token::{Loaded, Request};

/// What came of a request.
pub(crate) struct Timed {
    pub fetched: Cut<Loaded>,
    /// What the read gave.
    pub got: Got,
    /// The times before it and after it, in milliseconds since 1970.
    pub before: u64,
    pub after: u64,
}

/// Reads what is requested, once, to the buffer's front, between two readings of the clock.
#[inline(always)]
pub(crate) fn read_timed<S: Source, K: Clock>(
    source: &mut S,
    clock: &mut K,
    buf: &mut [u8],
    request: Request,
    sector: u64,
) -> Result<Timed, SourceLost>
    requires some { 0 < request.len }
    requires fits { request.len ≤ length buf.old }
    requires sector { 0 < sector }
    requires opened { (S.state source.old).is_open ≡ true }
    requires short { request.pos + request.len < 2 ^ 63 }
    ensures timed { IfOk result (λ timed. IsTimed request sector timed buf.new (S.state source.old) (S.state source.new)
        (K.state clock.old) (K.state clock.new)) }
    ensures parts { IfOk result (λ timed. Spans request timed.fetched) }
    ensures lost { OnErr result (Loses (S.state source.old) (S.state source.new)) }
    ensures lost_clock { OnErr result ((before : ℕ) × (before < 2 ^ 64)
        × Reads (before ∷ []) (K.state clock.old) (K.state clock.new)) }
    ensures same { length buf.new ≡ length buf.old }
    ensures source { Stays (S.state source.old) (S.state source.new) }
    ensures clock { Keeps (K.state clock.old) (K.state clock.new) }
{
    let before = clock.now_ms();
    let (got, fetched) = fetch(source, buf, request, sector)?;
    let after = clock.now_ms();
    Ok(Timed {
        fetched,
        got,
        before,
        after,
    })
}
