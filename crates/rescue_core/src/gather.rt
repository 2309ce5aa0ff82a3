//! A read whose kept part is in the output.
ghost use Rattle.std.specs.Prelude.{◌≡◌, false, length, IfOk, IfErr};
ghost use Rattle.run_options.specs.Settings.{HasPlaces};
ghost use Rattle.rescue_domain.specs.Parts.{covers};
ghost use Rattle.transfer_token.specs.Tokens.{Spans};
ghost use Rattle.rescue_core.specs.Outside.{between, IsOpen, AreSame, SilentlyStay};
ghost use Rattle.rescue_core.specs.RunState.{run_of, IsRun, IsNext};
ghost use Rattle.rescue_core.specs.Turning.{Halted};
ghost use Rattle.rescue_core.specs.Closing.{drafting_at_stop};
ghost use Rattle.rescue_core.specs.TurnParts.{Gathers};

use crate::landing::{kept_size, land_kept};
use crate::outside::Outside;
use crate::running::Running;
use crate::timed::{Timed, read_timed};
use crate::turn::Turn;
use block_list::tiles::Tiles;
use crash_site::site::{Site, SiteCall};
use faulty_source::source::Source;
use rescue_console::clock::Clock;
use rescue_console::console::Console;
use rescue_rules::stop::Stop;
use transfer_token::fetch::Cut;
use transfer_token::token::{Landed, Request};

/// What was gathered of a request.
pub(crate) struct Gathered {
    pub kept: Cut<Landed>,
    pub turn: Turn,
    /// The time after the read, in milliseconds since 1970.
    pub after: u64,
}

impl<T: Tiles> Running<T> {
    /// Reads what is requested, and writes what is kept of it to its place in the output. A lost read or a failed write
    /// is a stop.
    #[inline(always)]
    pub(crate) fn gather<S: Source, D: Site, K: Clock, C: Console>(
        &mut self,
        request: Request,
        outside: &mut Outside<S, D, K, C>,
    ) -> Result<Gathered, Stop>
        requires run { IsRun T.Tiles self.old }
        requires request { IsNext (run_of T.Tiles self.old) request }
        requires places { HasPlaces self.old.settings (covers self.old.domain) }
        requires open { IsOpen S.Source D.Site outside.old }
        ensures gathered { IfOk result (λ got. Gathers request (run_of T.Tiles self.old) got
            (between S.Source D.Site K.Clock C.Console outside.old outside.new)) }
        ensures parts { IfOk result (λ got. Spans request got.kept) }
        ensures halted { IfErr result (λ stop. Halted request stop (run_of T.Tiles self.old) (run_of T.Tiles self.old)
            (between S.Source D.Site K.Clock C.Console outside.old outside.new)) }
        ensures draft { IfErr result (λ stop. drafting_at_stop stop ≡ false) }
        ensures buffer { self.new ≡ record self.old { buf = self.new.buf } }
        ensures room { length self.new.buf.items ≡ length self.old.buf.items }
        ensures stays { SilentlyStay (between S.Source D.Site K.Clock C.Console outside.old outside.new) }
        ensures same { AreSame outside.old outside.new }
    {
        let buf: &mut [u8] = &mut self.buf;
        let Ok(timed) = read_timed(
            outside.source,
            outside.clock,
            buf,
            request,
            self.settings.sector,
        ) else {
            return Err(Stop::SourceLost);
        };
        let Timed {
            fetched,
            got,
            before,
            after,
        } = timed;
        let at = request.pos.saturating_sub(self.settings.input_position)
            + self.settings.output_position;
        let Ok(kept) = land_kept(fetched, buf, outside.site, at) else {
            return Err(Stop::Site(SiteCall::ImageWrite));
        };
        let turn = self.turn_after(request, got, kept_size(&kept), before, after);
        Ok(Gathered { kept, turn, after })
    }
}
