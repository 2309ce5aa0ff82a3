//! The locks on a mapfile and on its draft, by which rescues with the same mapfile keep apart.
use crate::folder::apart::Apart;
use crate::folder::names::open_as;
use file_identity::identity::Identity;
use kernel_files::kernel::Kernel;
use kernel_files::standing::{Access, Standing};
use std::io;

/// A mapfile, or a draft that is to be one. It is locked for as long as this is kept.
#[derive(Drop)]
pub(super) struct HeldMap<K: Kernel> {
    /// Open for its lock alone.
    file: K::Open,
    identity: Identity,
}

impl<K: Kernel> HeldMap<K> {
    /// Keeps a file that is locked.
    pub fn keep(file: K::Open, identity: Identity) -> HeldMap<K> {
        HeldMap { file, identity }
    }
}

/// Whether the mapfile that was found is the one that is held here.
fn is_held<K: Kernel>(held: &Option<HeldMap<K>>, found: &Standing) -> bool {
    match held {
        Some(map) => map.identity == found.identity,
        None => false,
    }
}

/// A file as its lock is asked for. NFS locks only a file that is open for writing, so that is tried first. None if it
/// can't be opened: what else is done with it says why.
fn open_to_lock<K: Kernel>(kernel: &K, name: &str) -> Option<K::Open> {
    match open_as(kernel, name, Access::Both) {
        Ok(file) => Some(file),
        Err(_) => kernel.open(name, Access::Read).ok(),
    }
}

/// Refuses a regular file that another run has locked.
pub(super) fn check_free<K: Kernel>(kernel: &K, name: &str, found: &Standing) -> io::Result<()> {
    if !found.is_file() {
        return Ok(());
    }
    match open_to_lock(kernel, name) {
        Some(file) => kernel.lock(&file),
        None => Ok(()),
    }
}

/// Refuses a mapfile that another run has locked. The one that is held here isn't asked.
pub(super) fn check_map_free<K: Kernel>(
    kernel: &K,
    held: &Option<HeldMap<K>>,
    name: &str,
    found: &Standing,
) -> io::Result<()> {
    if is_held(held, found) {
        return Ok(());
    }
    check_free(kernel, name, found)
}

/// Locks the mapfile that is there, and keeps it so. What is no regular file, or can't be found or opened, isn't
/// locked: the calls that follow refuse it.
pub(super) fn hold_map<K: Kernel>(
    kernel: &K,
    apart: &Apart<'_>,
    held: &mut Option<HeldMap<K>>,
    name: &str,
) -> io::Result<()> {
    let Ok(found) = kernel.reached(name) else {
        return Ok(());
    };
    if !found.is_file() || is_held(held, &found) {
        return Ok(());
    }
    apart.check(found.identity)?;
    if let Some(file) = open_to_lock(kernel, name) {
        kernel.lock(&file)?;
        let identity = kernel.met(&file)?.identity;
        *held = Some(HeldMap::keep(file, identity));
    }
    Ok(())
}
