//! A draft of a mapfile, by how far it is: begun, filled, firm. Only a firm one can be published.
ghost use Rattle.std.specs.Prelude.{◌≡◌, true, false, IsTrue, ◌∷◌, [], OnOk};
ghost use Rattle.crash_site.specs.Calls.{draft_sync};
ghost use Rattle.mapfile_text.specs.Printed.{printed};
ghost use Rattle.mapfile_save.specs.Saving.{begin_calls, fill_calls, publish_calls, EndsBegun, EndsFilled, EndsFirm, Saves};

use crate::names::Names;
use arrayvec::ArrayVec;
use block_list::tiles::Tiles;
use crash_site::site::{Site, SiteCall};
use mapfile_text::heading::Heading;
use mapfile_text::printer::MapPrinter;
use mapfile_text::state::MapState;

/// A call of a save failed. It spends the draft.
#[derive(Clone, Copy, Debug, PartialEq, Eq)]
pub struct SaveFault {
    pub call: SiteCall,
}

fn at(call: SiteCall) -> SaveFault
    ensures { result ≡ record { call = call } }
{
    SaveFault { call }
}

/// A map was saved.
#[derive(Clone, Copy, Debug, PartialEq, Eq)]
pub struct Saved;

/// The draft is begun, and empty.
#[derive(Clone, Copy, Debug)]
pub struct Begun;

/// The draft has its whole text.
#[derive(Clone, Copy, Debug)]
pub struct Filled;

/// The draft's text is durable.
#[derive(Clone, Copy, Debug)]
pub struct Firm;

/// A draft that came as far as its state says. It is made by `begin`, filled by `fill`, made durable by `firm` and
/// spent by `publish`, in this order. None of these calls takes memory.
pub struct Draft<S> {
    state: S,
}

impl Draft<Begun> {
    /// Syncs the image, and then begins the draft.
    pub fn begin<D: Site>(site: &mut D, names: &Names) -> Result<Draft<Begun>, SaveFault>
        ensures call { Saves (begin_calls names.now) true result (D.state site.old) (D.state site.new) }
        ensures begun { OnOk result (IsTrue (D.state site.old).tells → EndsBegun (D.state site.new).calls) }
    {
        site.image_sync().map_err(|_| at(SiteCall::ImageSync))?;
        site.draft_begin(names.draft())
            .map_err(|_| at(SiteCall::DraftBegin))?;
        Ok(Draft { state: Begun })
    }

    /// Appends the printed map, piece by piece.
    pub fn fill<D: Site, T: Tiles>(
        self,
        site: &mut D,
        state: MapState,
        tiles: &T,
        heading: &Heading,
    ) -> Result<Draft<Filled>, SaveFault>
        requires drafting { (D.state site.old).is_drafting ≡ true }
        requires begun { IsTrue (D.state site.old).tells → EndsBegun (D.state site.old).calls }
        ensures call { Saves (fill_calls (printed heading.now state (T.statuses tiles.now))) true result
            (D.state site.old) (D.state site.new) }
        ensures filled { OnOk result (IsTrue (D.state site.old).tells → EndsFilled (D.state site.new).calls) }
    {
        let Draft { state: _begun } = self;
        let mut printer = MapPrinter::begin();
        let mut piece = ArrayVec::new();
        while printer.next(state, heading, tiles, &mut piece) {
            let Ok(()) = site.draft_append(piece.as_slice()) else {
                return Err(at(SiteCall::DraftAppend));
            };
        }
        Ok(Draft { state: Filled })
    }
}

impl Draft<Filled> {
    /// Makes the draft durable.
    pub fn firm<D: Site>(self, site: &mut D) -> Result<Draft<Firm>, SaveFault>
        requires drafting { (D.state site.old).is_drafting ≡ true }
        requires filled { IsTrue (D.state site.old).tells → EndsFilled (D.state site.old).calls }
        ensures call { Saves (draft_sync ∷ []) true result (D.state site.old) (D.state site.new) }
        ensures firm { OnOk result (IsTrue (D.state site.old).tells → EndsFirm (D.state site.new).calls) }
    {
        let Draft { state: _filled } = self;
        site.draft_sync().map_err(|_| at(SiteCall::DraftSync))?;
        Ok(Draft { state: Firm })
    }
}

impl Draft<Firm> {
    /// Puts the draft in the mapfile's place, and settles that.
    pub fn publish<D: Site>(self, site: &mut D, names: &Names) -> Result<Saved, SaveFault>
        requires drafting { (D.state site.old).is_drafting ≡ true }
        requires firm { IsTrue (D.state site.old).tells → EndsFirm (D.state site.old).calls }
        ensures { Saves (publish_calls names.now) false result (D.state site.old) (D.state site.new) }
    {
        let Draft { state: _firm } = self;
        site.draft_publish(names.map())
            .map_err(|_| at(SiteCall::DraftPublish))?;
        site.map_settle(names.map())
            .map_err(|_| at(SiteCall::MapSettle))?;
        Ok(Saved)
    }
}
