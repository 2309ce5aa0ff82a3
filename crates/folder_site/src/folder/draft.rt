//! The draft of a mapfile: begun, appended to, synced, renamed.
ghost use Rattle.std.specs.Prelude.{◌≡◌, ◌≤◌, ℕ, true, false, None, Some, option_map, IsTrue, length, string_bytes, OnOk, OnErr, IfOk};
ghost use Rattle.kernel_files.specs.Volume.{create, unlink, sync_file, rename, IsNew};
ghost use Rattle.kernel_files.specs.Answers.{volume, Made};
ghost use Rattle.kernel_files.specs.Steps.{MadeBy, IsBroken};
ghost use Rattle.kernel_files.specs.MapCalls.{Begins, Appends, Removes};
ghost use Rattle.folder_site.specs.Told.{flag_of};
ghost use Rattle.folder_site.specs.Drafts.{BreaksBeginAt, BreaksAppendAt, AppendsOne, BreaksOne};

use crate::folder::apart::Apart;
use crate::folder::held::{HeldMap, check_free, check_map_free};
use crate::folder::mapfile::find_map;
use crate::folder::names::find;
use file_identity::identity::Identity;
use kernel_files::kernel::Kernel;
use kernel_files::standing::Standing;
use std::alloc::Global;
use std::io::{self, ErrorKind};

/// The bits of a mode that say who may read, write and run a file.
const RIGHTS: u32 = 0o777;

/// A begun draft under its own name. It is locked.
#[derive(Drop)]
pub(super) struct OpenDraft<K: Kernel> {
    pub file: K::Open,
    pub name: String,
    identity: Identity,
    /// It was synced since it was last added to.
    pub is_firm: bool,
    /// A call on it failed, so that no sync makes all of it durable.
    pub is_lost: bool,
}

/// Whether a draft is begun under this name.
pub(super) fn is_draft<K: Kernel>(draft: &Option<OpenDraft<K>>, name: &str) -> bool
    ensures { result ≡ false → option_map (λ d. string_bytes d.name) draft.now ≡ Some name.now → ⊥ }
{
    match draft {
        Some(draft) => draft.name.as_str() == name,
        None => false,
    }
}

/// Whether a call on the draft failed, or none is begun.
pub(super) fn is_lost<K: Kernel>(draft: &Option<OpenDraft<K>>) -> bool
    ensures { result ≡ flag_of (option_map (λ d. d.is_lost) draft.now) }
{
    match draft {
        Some(draft) => draft.is_lost,
        None => true,
    }
}

/// Frees a draft's name. A file that has it loses it; a folder keeps it, and so does the draft of another run.
fn clear_name<K: Kernel>(kernel: &mut K, apart: &Apart<'_>, name: &str) -> io::Result<()>
    ensures ok { OnOk result (MadeBy (Removes (volume (K.told kernel.old)) name.now)
        (K.told kernel.old) (K.told kernel.new)) }
    ensures err { OnErr result (MadeBy (IsBroken (unlink name.now)) (K.told kernel.old) (K.told kernel.new)) }
{
    match find(kernel, name)? {
        Some(found) => {
            apart.check(found.identity)?;
            check_free(kernel, name, &found)?;
            kernel.unlink(name)
        }
        None => Ok(()),
    }
}

/// Makes a new file, open to be written.
fn make_draft<K: Kernel>(kernel: &mut K, name: &str) -> io::Result<K::Open>
    ensures { (i : ℕ) × (IsTrue (K.told kernel.old).tells → IsNew (volume (K.told kernel.old)) i)
        × IfOk result (λ file. K.number file ≡ i)
        × OnOk result (IsTrue (K.told kernel.old).tells → (volume (K.told kernel.old)).names name.now ≡ None)
        × Made (create name.now i) result (K.told kernel.old) (K.told kernel.new) }
{
    kernel.create_new(name)
}

/// Writes some front of a piece at a file's end, and gives the rest. A write that is interrupted wrote nothing, and one
/// that takes nothing is an error.
fn append_some<'a, K: Kernel>(
    kernel: &mut K,
    file: &K::Open,
    piece: &'a [u8],
) -> io::Result<&'a [u8]>
    ensures ok { IfOk result (λ rest. MadeBy (AppendsOne (K.number file.now) piece.now rest.now)
        (K.told kernel.old) (K.told kernel.new)) }
    ensures err { OnErr result (MadeBy (BreaksOne (K.number file.now)) (K.told kernel.old) (K.told kernel.new)) }
{
    match kernel.append(file, piece) {
        Ok(0) => Err(ErrorKind::WriteZero.into()),
        Ok(count) => Ok(&piece[count..]),
        Err(error) if error.kind() == ErrorKind::Interrupted => Ok(piece),
        Err(error) => Err(error),
    }
}

/// Adds a piece at a file's end, whole.
fn append_all<K: Kernel>(kernel: &mut K, file: &K::Open, piece: &[u8]) -> io::Result<()>
    ensures ok { OnOk result (MadeBy (Appends (K.number file.now) piece.now)
        (K.told kernel.old) (K.told kernel.new)) }
    ensures err { OnErr result (MadeBy (BreaksAppendAt (K.number file.now) piece.now)
        (K.told kernel.old) (K.told kernel.new)) }
{
    let mut rest = piece;
    for _ in 0..u64::MAX {
        if rest.is_empty() {
            return Ok(());
        }
        rest = append_some(kernel, file, rest)?;
    }
    Err(ErrorKind::TimedOut.into())
}

impl<K: Kernel> OpenDraft<K> {
    /// Makes a new file. A file that had its name loses that name; a folder keeps it, and so does the draft of another
    /// run.
    pub fn begin(
        kernel: &mut K,
        alloc: Global,
        apart: &Apart<'_>,
        name: &str,
    ) -> io::Result<OpenDraft<K>>
        ensures ok { IfOk result (λ draft. MadeBy (Begins (volume (K.told kernel.old)) name.now (K.number draft.file))
            (K.told kernel.old) (K.told kernel.new)) }
        ensures name { IfOk result (λ draft. string_bytes draft.name ≡ name.now) }
        ensures fresh { IfOk result (λ draft. (draft.is_firm ≡ false) × (draft.is_lost ≡ false)) }
        ensures err { OnErr result (MadeBy (BreaksBeginAt (volume (K.told kernel.old)) name.now)
            (K.told kernel.old) (K.told kernel.new)) }
    {
        clear_name(kernel, apart, name)?;
        let copy = String::from_str(alloc, name)?;
        let file = make_draft(kernel, name)?;
        kernel.lock(&file)?;
        let identity = kernel.met(&file)?.identity;
        Ok(OpenDraft {
            file,
            name: copy,
            identity,
            is_firm: false,
            is_lost: false,
        })
    }

    /// Adds a piece at the draft's end.
    pub fn append(&mut self, kernel: &mut K, piece: &[u8]) -> io::Result<()>
        ensures ok { OnOk result (MadeBy (Appends (K.number self.old.file) piece.now)
            (K.told kernel.old) (K.told kernel.new)) }
        ensures err { OnErr result (MadeBy (BreaksAppendAt (K.number self.old.file) piece.now)
            (K.told kernel.old) (K.told kernel.new)) }
        ensures done { OnOk result (self.new ≡ record self.old { is_firm = false }) }
        ensures lost { OnErr result (self.new ≡ record self.old { is_firm = false; is_lost = true }) }
    {
        self.is_firm = false;
        let outcome = append_all(kernel, &self.file, piece);
        self.is_lost = self.is_lost || outcome.is_err();
        outcome
    }

    /// Makes the draft's bytes durable.
    pub fn sync(&mut self, kernel: &mut K) -> io::Result<()>
        ensures made { Made (sync_file (K.number self.old.file)) result (K.told kernel.old) (K.told kernel.new) }
        ensures done { OnOk result (self.new ≡ record self.old { is_firm = true }) }
        ensures lost { OnErr result (self.new ≡ record self.old { is_firm = false; is_lost = true }) }
    {
        let outcome = kernel.sync_file(&self.file);
        self.is_firm = outcome.is_ok();
        self.is_lost = self.is_lost || outcome.is_err();
        outcome
    }

    /// Gives the draft the mode and the owner of a mapfile that is there. What is no regular file, such as a device,
    /// keeps its name, and so does a mapfile that another run has locked. The draft has to have its name still.
    fn prepare(
        &self,
        kernel: &K,
        apart: &Apart<'_>,
        held: &Option<HeldMap<K>>,
        name: &str,
    ) -> io::Result<()> {
        if let Some(found) = find_map(kernel, apart, name)? {
            check_map_free(kernel, held, name, &found)?;
            keep_rights(kernel, &self.file, &found);
        }
        if kernel.found(self.name.as_str())?.identity != self.identity {
            return Err(ErrorKind::AlreadyExists.into());
        }
        Ok(())
    }

    /// Renames the draft to a mapfile that stays locked.
    pub fn publish(
        self,
        kernel: &mut K,
        apart: &Apart<'_>,
        held: &mut Option<HeldMap<K>>,
        name: &str,
    ) -> io::Result<()>
        ensures { Made (rename (string_bytes self.name) name.now) result (K.told kernel.old) (K.told kernel.new) }
    {
        self.prepare(kernel, apart, held, name)?;
        kernel.rename(self.name.as_str(), name)?;
        *held = Some(HeldMap::keep(self.file, self.identity));
        Ok(())
    }
}

/// Gives a file the mode of another, and its owner and group as far as the kernel allows.
fn keep_rights<K: Kernel>(kernel: &K, file: &K::Open, old: &Standing) {
    if kernel.give(file, Some(old.owner), old.group).is_err() {
        let _ = kernel.give(file, None, old.group);
    }
    let _ = kernel.set_mode(file, old.mode & RIGHTS);
}
