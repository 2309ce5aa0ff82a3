//! The notes of a site's calls, and a recorder that takes none.
ghost use Rattle.std.specs.Prelude.{◌≡◌, ◌++◌, ◌∷◌, [], false, IsTrue, Some, None, OnOk};
ghost use Rattle.crash_site.specs.Calls.{Call};
ghost use Rattle.site_record.specs.Record.{Noted, call_of, note_of};

use crash_site::site::MapRead;
use std::alloc::AllocError;

/// A call of a site that begins, with what it is handed: names, pieces, a place, and how many bytes a read asks for.
#[derive(Clone, Copy)]
pub enum Asked<'a> {
    /// The name, and whether an absent file is to be made.
    ImageOpen(&'a str, bool),
    ImageRead(u64, usize),
    ImageWrite(u64, &'a [u8]),
    ImageSync,
    MapRead(&'a str, u64, usize),
    DraftBegin(&'a str),
    DraftAppend(&'a [u8]),
    DraftSync,
    DraftPublish(&'a str),
    MapSettle(&'a str),
    MapRemove(&'a str),
}

/// How a call ended.
#[derive(Clone, Copy)]
pub enum Ended {
    Done,
    /// A read of the image gave this many bytes.
    Gave(usize),
    /// A read of a mapfile found this.
    Found(MapRead),
    Failed,
}

/// Takes notes of a site's calls, one at a time: `begin` before a call, and `end` after it.
pub trait Recorder: Drop {
    /// What it tells.
    ghost told: { Self → Noted };

    /// Takes down a call that begins. If another has begun, no note of it is taken.
    fn begin(&mut self, call: Asked<'_>) -> Result<(), AllocError>
        ensures tells { (told self.new).tells ≡ (told self.old).tells }
        ensures notes { (told self.new).notes ≡ (told self.old).notes }
        ensures begun { OnOk result (IsTrue (told self.new).tells
            → (told self.new).begun ≡ Some (call_of call.entry)) };

    /// Notes how the call ended that has begun, and how many calls of the kernel it made.
    fn end(&mut self, ended: Ended, made: usize)
        ensures tells { (told self.new).tells ≡ (told self.old).tells }
        ensures noted { (call : Call) → (told self.old).begun ≡ Some call → IsTrue (told self.old).tells
            → (told self.new).notes ≡ (told self.old).notes ++ note_of call ended made ∷ [] }
        ensures idle { (told self.old).begun ≡ None → (told self.new).notes ≡ (told self.old).notes }
        ensures over { IsTrue (told self.new).tells → (told self.new).begun ≡ None };
}

/// Takes no notes, and tells nothing.
#[derive(Drop)]
pub struct NoRecord;

impl Recorder for NoRecord {
    ghost told = { λ r. record { tells = false; notes = []; begun = None } };

    #[inline(always)]
    fn begin(&mut self, _call: Asked<'_>) -> Result<(), AllocError> {
        Ok(())
    }

    #[inline(always)]
    fn end(&mut self, _ended: Ended, _made: usize) {}
}
