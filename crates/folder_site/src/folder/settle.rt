//! The settle: the sync of a mapfile's folder, which makes a rename or a removal durable.
ghost use Rattle.std.specs.Prelude.{◌≡◌, OnOk, OnErr};
ghost use Rattle.kernel_files.specs.Volume.{sync_folder, folder_of};
ghost use Rattle.kernel_files.specs.Answers.{volume, Made};
ghost use Rattle.kernel_files.specs.Steps.{MadeBy};
ghost use Rattle.kernel_files.specs.MapCalls.{Tries, Probes, SyncsFound, SettlesFound, BreaksTry, BreaksSyncs, BreaksSettles};
ghost use Rattle.folder_site.specs.Settles.{BreaksProbes, NoCalls, SyncsReached, BreaksReached};

use crate::folder::apart::Apart;
use crate::folder::held::{HeldMap, check_free, hold_map};
use crate::folder::mapfile::find_map;
use crate::folder::names::{find, open_as};
use kernel_files::kernel::Kernel;
use kernel_files::standing::{Access, Kind};
use real_files::outcome::{if_allowed, removable};
use std::io::{self, ErrorKind};

/// Makes the entries of a mapfile's folder durable, and then the mapfile itself if it is there. A saved draft was
/// synced before its rename, so that its name alone can still be lost. Locks the mapfile first; and if more saves are
/// to come, asks whether it can be saved, and before the first one whether it lies on the input.
pub(super) fn settle<K: Kernel>(
    rt: &HostRuntime,
    kernel: &mut K,
    apart: &Apart<'_>,
    held: &mut Option<HeldMap<K>>,
    name: &str,
    saves: bool,
) -> io::Result<()>
    ensures ok { OnOk result (MadeBy (SettlesFound (volume (K.told kernel.old)) name.now)
        (K.told kernel.old) (K.told kernel.new)) }
    ensures err { OnErr result (MadeBy (BreaksSettles (volume (K.told kernel.old)) name.now)
        (K.told kernel.old) (K.told kernel.new)) }
{
    if saves && held.is_none() {
        apart.check_folder(kernel, name)?;
    }
    hold_map(kernel, apart, held, name)?;
    ask_for_saves(rt, kernel, apart, name, saves)?;
    sync_map(kernel, apart, name)
}

/// Makes the entries of a mapfile's folder durable, and then the file that has its name.
fn sync_map<K: Kernel>(kernel: &mut K, apart: &Apart<'_>, name: &str) -> io::Result<()>
    ensures ok { OnOk result (MadeBy (SyncsFound name.now ((volume (K.told kernel.old)).names name.now))
        (K.told kernel.old) (K.told kernel.new)) }
    ensures err { OnErr result (MadeBy (BreaksSyncs name.now ((volume (K.told kernel.old)).names name.now))
        (K.told kernel.old) (K.told kernel.new)) }
{
    match find_map(kernel, apart, name)? {
        Some(_) => sync_found(kernel, name),
        None => sync_folder_of(kernel, name),
    }
}

/// Makes the entries of a mapfile's folder durable, and then the mapfile, which is there.
fn sync_found<K: Kernel>(kernel: &mut K, name: &str) -> io::Result<()>
    ensures ok { OnOk result (MadeBy (SyncsFound name.now ((volume (K.told kernel.old)).names name.now))
        (K.told kernel.old) (K.told kernel.new)) }
    ensures err { OnErr result (MadeBy (BreaksSyncs name.now ((volume (K.told kernel.old)).names name.now))
        (K.told kernel.old) (K.told kernel.new)) }
{
    sync_folder_of(kernel, name)?;
    sync_reached(kernel, name)?;
    Ok(())
}

/// Makes the entries of a name's folder durable.
fn sync_folder_of<K: Kernel>(kernel: &mut K, name: &str) -> io::Result<()>
    ensures { Made (sync_folder (folder_of name.now)) result (K.told kernel.old) (K.told kernel.new) }
{
    let folder = kernel.open_folder(name)?;
    kernel.sync_folder(&folder)
}

/// Makes the file durable that a name reaches, and before it, if the name is a link, the entry to which it leads, which
/// may lie in another folder.
fn sync_reached<K: Kernel>(kernel: &mut K, name: &str) -> io::Result<()>
    ensures ok { OnOk result (MadeBy (SyncsReached (volume (K.told kernel.old)) name.now)
        (K.told kernel.old) (K.told kernel.new)) }
    ensures err { OnErr result (MadeBy (BreaksReached (volume (K.told kernel.old)) name.now)
        (K.told kernel.old) (K.told kernel.new)) }
{
    let file = open_as(kernel, name, Access::Read)?;
    sync_target(kernel, name)?;
    kernel.sync_file(&file)
}

/// Makes the entry durable to which a link leads, if its folder can be opened. What is no link is left alone.
fn sync_target<K: Kernel>(kernel: &mut K, name: &str) -> io::Result<()>
    ensures { MadeBy NoCalls (K.told kernel.old) (K.told kernel.new) }
{
    if kernel.found(name)?.kind != Kind::Link {
        return Ok(());
    }
    match if_allowed(kernel.open_target_folder(name), false)? {
        Some(target) => kernel.sync_folder(&target),
        None => Ok(()),
    }
}

/// Whether a draft could be made beside a mapfile, and take its place, if there are to be any. No file that is there is
/// lost.
fn ask_for_saves<K: Kernel>(
    rt: &HostRuntime,
    kernel: &mut K,
    apart: &Apart<'_>,
    name: &str,
    saves: bool,
) -> io::Result<()>
    ensures ok { OnOk result (MadeBy (Probes (volume (K.told kernel.old)) name.now)
        (K.told kernel.old) (K.told kernel.new)) }
    ensures err { OnErr result (MadeBy (BreaksProbes (volume (K.told kernel.old)) name.now)
        (K.told kernel.old) (K.told kernel.new)) }
{
    if !saves {
        return Ok(());
    }
    let draft = format!(in rt.alloc(); "{name}.tmp")?;
    probe(kernel, apart, draft.as_str())?;
    if find(kernel, name)?.is_some() {
        ask_for_removal(kernel, name)?;
    }
    Ok(())
}

/// Whether a draft could be made under a name, and removed.
fn probe<K: Kernel>(kernel: &mut K, apart: &Apart<'_>, draft: &str) -> io::Result<()>
    ensures ok { OnOk result (MadeBy (Tries (volume (K.told kernel.old)) draft.now)
        (K.told kernel.old) (K.told kernel.new)) }
    ensures err { OnErr result (MadeBy (BreaksTry (volume (K.told kernel.old)) draft.now)
        (K.told kernel.old) (K.told kernel.new)) }
{
    match find(kernel, draft)? {
        None => {
            kernel.create_new(draft)?;
            kernel.unlink(draft)
        }
        Some(found) => {
            apart.check(found.identity)?;
            check_free(kernel, draft, &found)?;
            ask_for_removal(kernel, draft)
        }
    }
}

/// Whether the file that has a name could be removed. The kernel looks at the rights first and then refuses to remove
/// as a folder what is none.
fn ask_for_removal<K: Kernel>(kernel: &K, name: &str) -> io::Result<()> {
    if kernel.found(name)?.kind == Kind::Folder {
        return Err(ErrorKind::IsADirectory.into());
    }
    removable(kernel.remove_folder(name))
}
