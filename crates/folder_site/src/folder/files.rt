//! The files of a site over a kernel, with the record of its calls.
//!
//! A call that could leave what the record doesn't say is refused: an open of the image after something changed, a call
//! on a mapfile under the image's or a draft's name, a publish of a draft that isn't synced. No program makes one.
ghost use Rattle.std.specs.Prelude.{◌≡◌, ◌+◌, ◌<◌, ◌≤◌, ◌^◌, ℕ, true, false, not, [], ◌∷◌, ◌++◌, ◌-◌, length, string_bytes, None, Some, is_some, option_map, OnOk, OnErr, IfOk, IsTrue};
ghost use Rattle.std.specs.Result.{result_ok};
ghost use Rattle.crash_site.specs.Calls.{Call, image_open, image_read, image_write, image_sync, map_read, draft_begin, draft_append, draft_sync, draft_publish, map_settle, map_remove};
ghost use Rattle.crash_site.specs.FileAnswers.{kind_of, is_absent, IsRead, IsWithin, IsImageRead};
ghost use Rattle.crash_site.specs.SiteState.{files_in, image_in};
ghost use Rattle.site_record.specs.Record.{call_of, note_of};
ghost use Rattle.folder_site.specs.Told.{Holds, IsNewSite, IsOwnFolder, Lists, flag_of, site_told, tells_both};
ghost use Rattle.kernel_laws.specs.Deeds.{total};
ghost use Rattle.kernel_laws.specs.Site.{AreLeft};
ghost use Rattle.std.proofs.Props.{props};

use crate::folder::allowed::{is_free, may_begin, may_open, may_publish, may_settle};
use crate::folder::apart::Apart;
use crate::folder::draft::{OpenDraft, is_lost};
use crate::folder::held::HeldMap;
use crate::folder::image::{OpenImage, identity_of, kind_opened, open_image, sync_image};
use crate::folder::mapfile::{OpenMap, Place, read_map, remove_map};
use crate::folder::settle::settle;
use crash_site::site::{ImageKind, MapRead};
use file_identity::identity::OpenInput;
use kernel_files::kernel::Kernel;
use real_files::read_ahead::ReadAhead;
use site_record::recorder::{Asked, Ended, Recorder};
use std::io::{self, ErrorKind};

/// What is open over a kernel, and the record of the calls.
#[derive(Drop)]
pub(super) struct KernelFiles<K: Kernel, R: Recorder> {
    kernel: K,
    recorder: R,
    rt: HostRuntime,
    input: Option<OpenInput>,
    image: Option<OpenImage<K>>,
    /// What was read ahead of the image.
    ahead: ReadAhead,
    map: Option<OpenMap<K>>,
    draft: Option<OpenDraft<K>>,
    /// The mapfile that this run has locked.
    held: Option<HeldMap<K>>,
    /// The name of a draft that was left unsynced.
    left: Option<String>,
    /// A mapfile was removed: no save is to come.
    is_removed: bool,
    /// A call was refused, or found no memory to be noted, and what it was about was let go.
    is_dropped: bool,
    /// Something may have changed, so that no image can be opened any more.
    is_closed: bool,
    ghost counted: { IsTrue (tells_both (K.told kernel) (R.told recorder))
        → total (R.told recorder).notes ≡ length (K.told kernel).calls } by { Prim.hlevel props },
    ghost holds: { ∥ (IsTrue (K.told kernel).tells → Holds (K.told kernel) (R.told recorder)
        (record {
          image = option_map (λ i. K.number i.file) image;
          image_name = option_map (λ i. string_bytes i.name) image;
          has_folder = flag_of (option_map (λ i. is_some i.folder) image);
          draft = option_map (λ d. K.number d.file) draft;
          draft_name = option_map (λ d. string_bytes d.name) draft;
          is_firm = flag_of (option_map (λ d. d.is_firm) draft);
          is_lost = flag_of (option_map (λ d. d.is_lost) draft);
          left = option_map (λ l. string_bytes l) left;
          is_dropped = is_dropped;
          is_closed = is_closed;
        }) (option_map (λ m. (string_bytes m.name, K.number m.file)) map) ahead) ∥₁ },
    ghost folder: { IsTrue (K.told kernel).tells → IsOwnFolder
        (option_map (λ i. (string_bytes i.name, option_map K.text i.folder)) image) } by { Prim.hlevel props },
}

/// A call that is refused.
fn refusal() -> io::Error {
    ErrorKind::InvalidInput.into()
}

/// Notes that a call begins, and how many calls of the kernel were made before it.
fn begin_call<K: Kernel, R: Recorder>(
    kernel: &K,
    recorder: &mut R,
    call: Asked<'_>,
) -> io::Result<usize>
    ensures made { IfOk result (λ before. IsTrue (K.told kernel.now).tells
        → before ≡ length (K.told kernel.now).calls) }
    ensures tells { (R.told recorder.new).tells ≡ (R.told recorder.old).tells }
    ensures notes { (R.told recorder.new).notes ≡ (R.told recorder.old).notes }
    ensures begun { OnOk result (IsTrue (R.told recorder.old).tells
        → (R.told recorder.new).begun ≡ Some (call_of call.entry)) }
{
    recorder.begin(call)?;
    Ok(kernel.made())
}

/// The same, unless what was open was let go, or the call isn't allowed. Then it is refused.
fn enter_call<K: Kernel, R: Recorder>(
    kernel: &K,
    recorder: &mut R,
    is_dropped: bool,
    is_allowed: bool,
    call: Asked<'_>,
) -> io::Result<usize>
    ensures made { IfOk result (λ before. IsTrue (K.told kernel.now).tells
        → before ≡ length (K.told kernel.now).calls) }
    ensures tells { (R.told recorder.new).tells ≡ (R.told recorder.old).tells }
    ensures notes { (R.told recorder.new).notes ≡ (R.told recorder.old).notes }
    ensures begun { OnOk result (IsTrue (R.told recorder.old).tells
        → (R.told recorder.new).begun ≡ Some (call_of call.entry)) }
    ensures kept { OnOk result (is_dropped ≡ false) }
    ensures allowed { OnOk result (is_allowed ≡ true) }
{
    if is_dropped || !is_allowed {
        return Err(refusal());
    }
    begin_call(kernel, recorder, call)
}

/// Notes how the call ended, and how many calls of the kernel were made since it began.
fn end_call<K: Kernel, R: Recorder>(kernel: &K, recorder: &mut R, before: usize, ended: Ended)
    ensures tells { (R.told recorder.new).tells ≡ (R.told recorder.old).tells }
    ensures noted { (call : Call) → (R.told recorder.old).begun ≡ Some call
        → IsTrue (tells_both (K.told kernel.now) (R.told recorder.old))
        → (R.told recorder.new).notes ≡ (R.told recorder.old).notes
        ++ note_of call ended (length (K.told kernel.now).calls - before) ∷ [] }
{
    recorder.end(ended, kernel.made().saturating_sub(before));
}

/// How a call ended that only says whether it failed.
fn ended_of<T>(outcome: &io::Result<T>) -> Ended
    ensures ok { OnOk outcome.now (result ≡ Ended.Done) }
    ensures err { OnErr outcome.now (result ≡ Ended.Failed) }
{
    match outcome {
        Ok(_) => Ended::Done,
        Err(_) => Ended::Failed,
    }
}

/// How a read of the image ended.
fn ended_read(outcome: &io::Result<usize>) -> Ended
    ensures ok { IfOk outcome.now (λ n. result ≡ Ended.Gave n) }
    ensures err { OnErr outcome.now (result ≡ Ended.Failed) }
{
    match outcome {
        Ok(count) => Ended::Gave(*count),
        Err(_) => Ended::Failed,
    }
}

/// How a read of a mapfile ended.
fn ended_map_read(outcome: &io::Result<MapRead>) -> Ended
    ensures ok { IfOk outcome.now (λ read. result ≡ Ended.Found read) }
    ensures err { OnErr outcome.now (result ≡ Ended.Failed) }
{
    match outcome {
        Ok(found) => Ended::Found(*found),
        Err(_) => Ended::Failed,
    }
}

impl<K: Kernel, R: Recorder> KernelFiles<K, R> {
    /// Over this kernel. Nothing is open or begun.
    pub fn new(kernel: K, recorder: R, rt: HostRuntime) -> KernelFiles<K, R>
        requires { IsNewSite (K.told kernel) (R.told recorder) }
        ensures image { result.image ≡ None }
        ensures draft { result.draft ≡ None }
        ensures told { site_told (K.told result.kernel) (R.told result.recorder)
            ≡ site_told (K.told kernel) (R.told recorder) }
    {
        KernelFiles {
            kernel,
            recorder,
            rt,
            input: None,
            image: None,
            ahead: ReadAhead::new(Vec::new(rt.alloc())),
            map: None,
            draft: None,
            held: None,
            left: None,
            is_removed: false,
            is_dropped: false,
            is_closed: false,
        }
    }

    /// The input that is open from here on, as it is noted here, is kept apart from what is written.
    pub fn keep_apart(&mut self, input: OpenInput)
        ensures told { site_told (K.told self.new.kernel) (R.told self.new.recorder)
            ≡ site_told (K.told self.old.kernel) (R.told self.old.recorder) }
        ensures image { self.new.image ≡ self.old.image }
        ensures draft { self.new.draft ≡ self.old.draft }
    {
        self.input = Some(input);
    }

    /// From here on the image is read ahead, by as many bytes as there is room for, if a read asks for fewer.
    pub fn read_ahead_in(&mut self, room: Vec<u8>)
        ensures told { site_told (K.told self.new.kernel) (R.told self.new.recorder)
            ≡ site_told (K.told self.old.kernel) (R.told self.old.recorder) }
        ensures image { self.new.image ≡ self.old.image }
        ensures draft { self.new.draft ≡ self.old.draft }
    {
        self.ahead = ReadAhead::new(room);
    }

    /// Whatever a stop of the kernel leaves, at any of its calls so far, the record of the site's calls may leave.
    pub fn any_stop(&self)
        ensures { ∥ (IsTrue (tells_both (K.told self.now.kernel) (R.told self.now.recorder))
            → AreLeft (K.told self.now.kernel).start (R.told self.now.recorder).notes
            (K.told self.now.kernel).calls) ∥₁ }
    {}

    /// Opens a file as the image, or makes it. None may be opened after something changed.
    pub fn open(&mut self, name: &str, make: bool) -> io::Result<ImageKind>
        ensures lists { Lists (image_open name.now make) result
            (site_told (K.told self.old.kernel) (R.told self.old.recorder))
            (site_told (K.told self.new.kernel) (R.told self.new.recorder)) }
        ensures kind { IfOk result (λ kind. IsTrue (tells_both (K.told self.old.kernel) (R.told self.old.recorder))
            → kind ≡ kind_of (files_in (site_told (K.told self.old.kernel) (R.told self.old.recorder)) name.now) make) }
        ensures made { IfOk result (λ kind. make ≡ true → is_absent kind ≡ false) }
        ensures open { IfOk result (λ kind. is_some self.new.image ≡ not (is_absent kind)) }
        ensures closed { OnErr result (self.new.image ≡ None) }
        ensures draft { is_some self.new.draft ≡ is_some self.old.draft }
    {
        let is_allowed = may_open(self.is_closed, &self.draft, name);
        self.image = None;
        self.map = None;
        self.ahead.begin_anew();
        let begun = enter_call(
            &self.kernel,
            &mut self.recorder,
            self.is_dropped,
            is_allowed,
            Asked::ImageOpen(name, make),
        );
        let before = match begun {
            Ok(before) => before,
            Err(error) => {
                self.is_dropped = true;
                return Err(error);
            }
        };
        self.is_closed = make;
        let opened = open_image(&self.rt, &mut self.kernel, &self.input, name, make);
        end_call(&self.kernel, &mut self.recorder, before, ended_of(&opened));
        let image = opened?;
        let kind = kind_opened(&image);
        self.image = image;
        Ok(kind)
    }

    /// Reads the image at a place, as many bytes as there are and as the buffer takes.
    pub fn read(&mut self, pos: u64, buf: &mut [u8]) -> io::Result<usize>
        requires opened { is_some self.old.image ≡ true }
        requires place { pos + length buf.old < 2 ^ 63 }
        ensures lists { Lists (image_read pos (length buf.old) (result_ok result)) result
            (site_told (K.told self.old.kernel) (R.told self.old.recorder))
            (site_told (K.told self.new.kernel) (R.told self.new.recorder)) }
        ensures count { IfOk result (λ n. n ≤ length buf.old) }
        ensures read { IfOk result (λ n. IsTrue (tells_both (K.told self.old.kernel) (R.told self.old.recorder))
            → IsImageRead (image_in (site_told (K.told self.old.kernel) (R.told self.old.recorder))) pos buf.new n) }
        ensures image { is_some self.new.image ≡ is_some self.old.image }
        ensures draft { is_some self.new.draft ≡ is_some self.old.draft }
    {
        if self.is_dropped {
            return Err(refusal());
        }
        let call = Asked::ImageRead(pos, buf.len());
        let before = begin_call(&self.kernel, &mut self.recorder, call)?;
        let Some(image) = &self.image else {
            unreachable!();
        };
        let outcome = image.read(&self.kernel, &mut self.ahead, pos, buf);
        end_call(
            &self.kernel,
            &mut self.recorder,
            before,
            ended_read(&outcome),
        );
        outcome
    }

    /// Writes a piece, which isn't empty, at a place of the image.
    pub fn write(&mut self, pos: u64, piece: &[u8]) -> io::Result<()>
        requires opened { is_some self.old.image ≡ true }
        requires place { pos + length piece.now < 2 ^ 63 }
        ensures lists { Lists (image_write pos piece.now) result
            (site_told (K.told self.old.kernel) (R.told self.old.recorder))
            (site_told (K.told self.new.kernel) (R.told self.new.recorder)) }
        ensures image { is_some self.new.image ≡ is_some self.old.image }
        ensures draft { is_some self.new.draft ≡ is_some self.old.draft }
    {
        if self.is_dropped || piece.is_empty() {
            return Err(refusal());
        }
        let call = Asked::ImageWrite(pos, piece);
        let before = begin_call(&self.kernel, &mut self.recorder, call)?;
        let Some(image) = &mut self.image else {
            unreachable!();
        };
        self.is_closed = true;
        image.is_changed = true;
        let outcome = image.write(&mut self.kernel, &mut self.ahead, pos, piece);
        end_call(&self.kernel, &mut self.recorder, before, ended_of(&outcome));
        outcome
    }

    /// Makes the image durable, and its entry. Without an image it makes no call.
    pub fn sync(&mut self) -> io::Result<()>
        ensures lists { Lists image_sync result
            (site_told (K.told self.old.kernel) (R.told self.old.recorder))
            (site_told (K.told self.new.kernel) (R.told self.new.recorder)) }
        ensures image { is_some self.new.image ≡ is_some self.old.image }
        ensures draft { is_some self.new.draft ≡ is_some self.old.draft }
    {
        if self.is_dropped {
            return Err(refusal());
        }
        let before = begin_call(&self.kernel, &mut self.recorder, Asked::ImageSync)?;
        self.is_closed = true;
        let outcome = sync_image(&mut self.kernel, &self.image);
        end_call(&self.kernel, &mut self.recorder, before, ended_of(&outcome));
        outcome
    }

    /// Reads a mapfile at a place.
    pub fn read_map(&mut self, name: &str, pos: u64, buf: &mut [u8]) -> io::Result<MapRead>
        requires { 0 < length buf.old }
        ensures lists { Lists (map_read name.now pos (length buf.old) (result_ok result)) result
            (site_told (K.told self.old.kernel) (R.told self.old.recorder))
            (site_told (K.told self.new.kernel) (R.told self.new.recorder)) }
        ensures count { IfOk result (λ read. IsWithin read (length buf.old)) }
        ensures read { IfOk result (λ read. IsTrue (tells_both (K.told self.old.kernel) (R.told self.old.recorder))
            → IsRead (files_in (site_told (K.told self.old.kernel) (R.told self.old.recorder)) name.now)
            pos buf.new read) }
        ensures image { is_some self.new.image ≡ is_some self.old.image }
        ensures draft { is_some self.new.draft ≡ is_some self.old.draft }
    {
        if self.is_dropped {
            return Err(refusal());
        }
        let call = Asked::MapRead(name, pos, buf.len());
        let before = begin_call(&self.kernel, &mut self.recorder, call)?;
        let apart = Apart::new(&self.input, identity_of(&self.image));
        let alloc = self.rt.alloc();
        let place = Place { name, pos };
        let outcome = read_map(&self.kernel, alloc, &apart, &mut self.map, place, buf);
        end_call(
            &self.kernel,
            &mut self.recorder,
            before,
            ended_map_read(&outcome),
        );
        outcome
    }

    /// Begins a draft. The one that was begun before is left.
    pub fn begin(&mut self, name: &str) -> io::Result<()>
        ensures lists { Lists (draft_begin name.now) result
            (site_told (K.told self.old.kernel) (R.told self.old.recorder))
            (site_told (K.told self.new.kernel) (R.told self.new.recorder)) }
        ensures image { is_some self.new.image ≡ is_some self.old.image }
        ensures begun { OnOk result (is_some self.new.draft ≡ true) }
        ensures none { OnErr result (self.new.draft ≡ None) }
    {
        self.map = None;
        let is_allowed = may_begin(self.draft.take(), &mut self.left, &self.image, name);
        let begun = enter_call(
            &self.kernel,
            &mut self.recorder,
            self.is_dropped,
            is_allowed,
            Asked::DraftBegin(name),
        );
        let before = match begun {
            Ok(before) => before,
            Err(error) => {
                self.is_dropped = true;
                return Err(error);
            }
        };
        self.is_closed = true;
        let apart = Apart::new(&self.input, identity_of(&self.image));
        let begun = OpenDraft::begin(&mut self.kernel, self.rt.alloc(), &apart, name);
        end_call(&self.kernel, &mut self.recorder, before, ended_of(&begun));
        self.draft = Some(begun?);
        Ok(())
    }

    /// Adds a piece at the draft's end.
    pub fn append(&mut self, piece: &[u8]) -> io::Result<()>
        requires { is_some self.old.draft ≡ true }
        ensures lists { Lists (draft_append piece.now) result
            (site_told (K.told self.old.kernel) (R.told self.old.recorder))
            (site_told (K.told self.new.kernel) (R.told self.new.recorder)) }
        ensures image { is_some self.new.image ≡ is_some self.old.image }
        ensures draft { is_some self.new.draft ≡ is_some self.old.draft }
    {
        if self.is_dropped {
            return Err(refusal());
        }
        let before = begin_call(&self.kernel, &mut self.recorder, Asked::DraftAppend(piece))?;
        let Some(draft) = &mut self.draft else {
            unreachable!();
        };
        self.is_closed = true;
        let outcome = draft.append(&mut self.kernel, piece);
        end_call(&self.kernel, &mut self.recorder, before, ended_of(&outcome));
        outcome
    }

    /// Makes the draft's bytes durable, if no call on it failed.
    pub fn sync_draft(&mut self) -> io::Result<()>
        requires { is_some self.old.draft ≡ true }
        ensures lists { Lists draft_sync result
            (site_told (K.told self.old.kernel) (R.told self.old.recorder))
            (site_told (K.told self.new.kernel) (R.told self.new.recorder)) }
        ensures image { is_some self.new.image ≡ is_some self.old.image }
        ensures draft { is_some self.new.draft ≡ is_some self.old.draft }
    {
        if self.is_dropped || is_lost(&self.draft) {
            return Err(refusal());
        }
        let before = begin_call(&self.kernel, &mut self.recorder, Asked::DraftSync)?;
        let Some(draft) = &mut self.draft else {
            unreachable!();
        };
        self.is_closed = true;
        let outcome = draft.sync(&mut self.kernel);
        end_call(&self.kernel, &mut self.recorder, before, ended_of(&outcome));
        outcome
    }

    /// Renames the draft, which is synced, to a mapfile's name.
    pub fn publish(&mut self, name: &str) -> io::Result<()>
        requires { is_some self.old.draft ≡ true }
        ensures lists { Lists (draft_publish name.now) result
            (site_told (K.told self.old.kernel) (R.told self.old.recorder))
            (site_told (K.told self.new.kernel) (R.told self.new.recorder)) }
        ensures image { is_some self.new.image ≡ is_some self.old.image }
        ensures draft { self.new.draft ≡ None }
    {
        let Some(draft) = self.draft.take() else {
            unreachable!();
        };
        self.map = None;
        let is_allowed = may_publish(&draft, &self.image, name);
        let begun = enter_call(
            &self.kernel,
            &mut self.recorder,
            self.is_dropped,
            is_allowed,
            Asked::DraftPublish(name),
        );
        let before = match begun {
            Ok(before) => before,
            Err(error) => {
                self.is_dropped = true;
                return Err(error);
            }
        };
        self.is_closed = true;
        let apart = Apart::new(&self.input, identity_of(&self.image));
        let outcome = draft.publish(&mut self.kernel, &apart, &mut self.held, name);
        end_call(&self.kernel, &mut self.recorder, before, ended_of(&outcome));
        outcome
    }

    /// Makes durable what has a mapfile's name.
    pub fn settle(&mut self, name: &str) -> io::Result<()>
        ensures lists { Lists (map_settle name.now) result
            (site_told (K.told self.old.kernel) (R.told self.old.recorder))
            (site_told (K.told self.new.kernel) (R.told self.new.recorder)) }
        ensures image { is_some self.new.image ≡ is_some self.old.image }
        ensures draft { is_some self.new.draft ≡ is_some self.old.draft }
    {
        self.map = None;
        let is_allowed = may_settle(&self.image, &self.draft, &self.left, name);
        let before = enter_call(
            &self.kernel,
            &mut self.recorder,
            self.is_dropped,
            is_allowed,
            Asked::MapSettle(name),
        )?;
        self.is_closed = true;
        let apart = Apart::new(&self.input, identity_of(&self.image));
        let outcome = settle(
            &self.rt,
            &mut self.kernel,
            &apart,
            &mut self.held,
            name,
            !self.is_removed,
        );
        end_call(&self.kernel, &mut self.recorder, before, ended_of(&outcome));
        outcome
    }

    /// Removes a mapfile. No save is expected after it.
    pub fn remove(&mut self, name: &str) -> io::Result<()>
        ensures lists { Lists (map_remove name.now) result
            (site_told (K.told self.old.kernel) (R.told self.old.recorder))
            (site_told (K.told self.new.kernel) (R.told self.new.recorder)) }
        ensures image { is_some self.new.image ≡ is_some self.old.image }
        ensures draft { is_some self.new.draft ≡ is_some self.old.draft }
    {
        self.map = None;
        self.is_removed = true;
        let is_allowed = is_free(&self.image, &self.draft, name);
        let before = enter_call(
            &self.kernel,
            &mut self.recorder,
            self.is_dropped,
            is_allowed,
            Asked::MapRemove(name),
        )?;
        self.is_closed = true;
        let outcome = remove_map(&mut self.kernel, &self.held, name);
        end_call(&self.kernel, &mut self.recorder, before, ended_of(&outcome));
        outcome
    }
}
