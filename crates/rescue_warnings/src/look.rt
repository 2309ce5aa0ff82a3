//! What is read of files before a run, without changing anything. No contract says what a file holds: what couldn't be
//! read, or isn't understood, isn't known.
use crate::facts::{Found, Place, Storage};
use file_identity::identity::Identity;
use file_identity::names::folder_of;
use kernel_devices::devices::{Mounting, find_mounting, find_under, find_under_open};
use kernel_devices::mounts::{device_text, find_mount, read_mounts};
use kernel_devices::sectors::logical_sector;
use real_files::outcome::if_there;
use std::fs::{self, File};
use std::io;
use std::os::unix::fs::{FileTypeExt, MetadataExt};

/// The unit in which the kernel tells a device's length, in bytes.
const UNIT: u64 = 512;

/// The number that a file holds.
fn number_in(rt: &HostRuntime, name: &str) -> Option<u64> {
    let text = fs::read_to_string(rt, name).ok()?;
    text.as_str().trim_ascii().parse().ok()
}

/// The length of a block device in bytes.
fn device_length(rt: &HostRuntime, number: u64) -> Option<u64> {
    let device = device_text(rt, number).ok()?;
    let device = device.as_str();
    let name = format!(in rt.alloc(); "/sys/dev/block/{device}/size").ok()?;
    number_in(rt, name.as_str())?.checked_mul(UNIT)
}

/// What is known of a block device with this number.
fn look_at_device(rt: &HostRuntime, number: u64) -> Found {
    Found::Device {
        length: device_length(rt, number),
        sector: logical_sector(rt, number),
    }
}

/// What a name reaches, if that is known.
pub fn look_at_file(rt: &HostRuntime, name: &str) -> Option<Found> {
    let Some(found) = if_there(fs::metadata(rt, name)).ok()? else {
        return Some(Found::Absent);
    };
    if found.is_file() {
        return Some(Found::Regular {
            length: found.len(),
        });
    }
    if found.file_type().is_char_device() {
        return Some(Found::CharacterDevice);
    }
    if !found.file_type().is_block_device() {
        return None;
    }
    Some(look_at_device(rt, found.rdev()))
}

/// How a block device, a part of it or a device that is made of it is mounted, if one is known to be.
pub fn look_at_mounting(rt: &HostRuntime, name: &str) -> Option<Mounting> {
    let found = Identity::of(&fs::metadata(rt, name).ok()?);
    if !found.is_device() {
        return None;
    }
    find_mounting(rt, found.device()).ok()?
}

/// Whether a name is known to be a link.
pub fn is_link(rt: &HostRuntime, name: &str) -> bool {
    match fs::symlink_metadata(rt, name) {
        Ok(found) => found.is_symlink(),
        Err(_) => false,
    }
}

/// What a kind of file systems may do to what is written there.
fn storage_of(kind: &str) -> Option<Storage> {
    match kind {
        "tmpfs" | "ramfs" | "devtmpfs" | "rootfs" => Some(Storage::Memory),
        "overlay" => Some(Storage::Overlay),
        "vfat" | "msdos" | "exfat" | "ext2" => Some(Storage::NoJournal),
        "fuseblk" => Some(Storage::Fuse),
        _ => None,
    }
}

/// What the file system with this number may do to what is written there.
fn look_at_storage(rt: &HostRuntime, number: u64) -> Option<Storage> {
    let device = device_text(rt, number).ok()?;
    let table = read_mounts(rt).ok()??;
    storage_of(find_mount(table.as_slice(), device.as_str())?.kind)
}

/// The block devices on which a file lies, down to disks, up to the first file of which one of these is made.
fn find_disks(rt: &HostRuntime, name: &str) -> io::Result<Vec<Identity>> {
    let file = Identity::of(&fs::metadata(rt, name)?);
    let mut disks = Vec::new(rt.alloc());
    for one in &find_under(rt, file)? {
        if !one.is_device() {
            return Ok(disks);
        }
        disks.push(*one)?;
    }
    Ok(disks)
}

/// The block devices on which the infile is known to lie, down to disks. There are none of a regular file, and a loop
/// device that is made of one ends them.
pub fn look_at_disks(rt: &HostRuntime, infile: &str) -> Vec<Identity> {
    find_disks(rt, infile).unwrap_or(Vec::new(rt.alloc()))
}

/// Whether one of these is one of the disks.
fn share(disks: &[Identity], found: io::Result<Vec<Identity>>) -> bool {
    let Ok(found) = found else {
        return false;
    };
    for one in &found {
        if disks.contains(one) {
            return true;
        }
    }
    false
}

/// What is known of where a file lies that is or would be in a folder.
fn look_at_folder(rt: &HostRuntime, disks: &[Identity], name: &str) -> Option<Place> {
    let folder = File::open(rt, folder_of(name)).ok()?;
    let number = folder.metadata().ok()?.dev();
    Some(Place {
        on_infile_disk: share(disks, find_under_open(rt, &folder)),
        storage: look_at_storage(rt, number),
    })
}

/// What is known of where a mapfile is saved: in its folder, even if its name is a link.
pub fn look_at_map_place(rt: &HostRuntime, disks: &[Identity], name: &str) -> Place {
    look_at_folder(rt, disks, name).unwrap_or(Place::unknown())
}

/// What is known of where an outfile lies or would be made. A device is its own place.
pub fn look_at_outfile_place(rt: &HostRuntime, disks: &[Identity], name: &str) -> Place {
    let found = match fs::metadata(rt, name) {
        Ok(found) if !found.is_file() || is_link(rt, name) => found,
        _ => return look_at_map_place(rt, disks, name),
    };
    Place {
        on_infile_disk: share(disks, find_under(rt, Identity::of(&found))),
        storage: if found.is_file() {
            look_at_storage(rt, found.dev())
        } else {
            None
        },
    }
}
