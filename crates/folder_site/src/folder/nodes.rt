//! No image is made among the kernel's device nodes: in place of a disk that is gone there would be a file in memory.
ghost use Rattle.std.specs.Prelude.{◌≡◌, ◌⊎◌, ◌↔◌, IsTrue, codes};

use file_identity::names::folder_of;
use kernel_devices::mounts::{device_text, find_mount, read_mounts};
use std::fs;
use std::io::{self, ErrorKind};
use std::os::unix::fs::MetadataExt;
use std::path::{Path, PathBuf};

/// How many links the kernel follows.
const LINKS: usize = 40;

/// The name to which a name leads by links.
fn name_reached(rt: &HostRuntime, name: &str) -> io::Result<PathBuf> {
    let mut reached = PathBuf::from_str(rt.alloc(), name)?;
    for _ in 0..LINKS {
        match reached.read_link(rt) {
            Ok(target) => {
                reached = Path::new(folder_of(reached.as_str())).join(rt.alloc(), target.as_str())?;
            }
            Err(error) if error.kind() == ErrorKind::OutOfMemory => return Err(error),
            Err(_) => break,
        }
    }
    Ok(reached)
}

/// Whether a file system of this kind, mounted in this folder, has the device nodes. A container has them in a `tmpfs`.
fn has_nodes(kind: &str, folder: &str) -> bool
    ensures { IsTrue result ↔ ((kind.now ≡ codes "devtmpfs")
        ⊎ ((kind.now ≡ codes "tmpfs") × (folder.now ≡ codes "/dev"))) }
{
    kind == "devtmpfs" || kind == "tmpfs" && folder == "/dev"
}

/// Refuses a new file among the device nodes, also if a link leads there.
pub(super) fn check_no_node(rt: &HostRuntime, name: &str) -> io::Result<()> {
    let reached = name_reached(rt, name)?;
    let number = fs::metadata(rt, folder_of(reached.as_str()))?.dev();
    let device = device_text(rt, number)?;
    let Some(table) = read_mounts(rt)? else {
        return Ok(());
    };
    match find_mount(table.as_slice(), device.as_str()) {
        Some(mount) if has_nodes(mount.kind, mount.folder) => Err(ErrorKind::NotFound.into()),
        _ => Ok(()),
    }
}
