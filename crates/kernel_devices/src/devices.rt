//! What the kernel says of a block device: what it lies on, what uses it, and whether it is gone. What can't be read
//! isn't known.
use crate::descriptor::read_told;
use crate::device_texts::{is_anonymous, is_lost, mount_number, node_name, read_number, swap_name};
use crate::mounts::{
    MountLine, device_text, find_mount, find_mount_by_number, if_told, is_newline, read_if_told,
    read_mounts,
};
use crate::names::{unescaped, without_mark};
use file_identity::identity::Identity;
use std::fs::{self, File, ReadDir};
use std::io;

/// The folder in which the kernel has an entry for each block device, under its number.
const DEVICES: &str = "/sys/dev/block";

/// The folder in which the kernel has an entry for each disk, under its name.
const DISKS: &str = "/sys/block";

/// The table of swap space.
const SWAPS: &str = "/proc/swaps";

/// How many devices and files one answer takes into account.
const MOST: usize = 256;

/// What uses a device.
#[derive(Drop)]
pub enum User {
    /// The file system on the device is mounted in this folder.
    Mount(String),
    /// The device is swap space.
    Swap,
    /// The device of this name is made of it.
    Device(String),
}

/// A device that is in use. Names of devices begin with `/dev/`.
#[derive(Drop)]
pub struct DeviceUse {
    pub device: String,
    pub user: User,
}

/// How a file system is mounted.
#[derive(Clone, Copy, Debug, PartialEq, Eq)]
pub enum Mounting {
    ReadOnly,
    Writable,
}

/// The name of what a folder has.
fn name_in(rt: &HostRuntime, folder: &str, what: &str) -> io::Result<String> {
    Ok(format!(in rt.alloc(); "{folder}/{what}")?)
}

/// The name of a file that the kernel has of a device.
fn name_of(rt: &HostRuntime, number: u64, what: &str) -> io::Result<String> {
    let device = device_text(rt, number)?;
    Ok(format!(in rt.alloc(); "{DEVICES}/{device}/{what}")?)
}

/// The number that a file of the kernel's holds.
fn number_in(rt: &HostRuntime, name: &str) -> io::Result<Option<u64>> {
    match read_if_told(rt, name)? {
        Some(text) => Ok(read_number(text.as_slice())),
        None => Ok(None),
    }
}

/// The block device or file that has a name.
fn found_as(rt: &HostRuntime, name: &str) -> io::Result<Option<Identity>> {
    match if_told(fs::metadata(rt, name))? {
        Some(found) => Ok(Some(Identity::of(&found))),
        None => Ok(None),
    }
}

/// The name that a table of the kernel's prints so. What is no text stays as it is printed.
fn name_printed(rt: &HostRuntime, printed: &str) -> io::Result<String> {
    match String::from_utf8(unescaped(rt.alloc(), printed.as_bytes())?) {
        Ok(name) => Ok(name),
        Err(_) => Ok(String::from_str(rt.alloc(), printed)?),
    }
}

fn add(found: &mut Vec<Identity>, one: Identity) -> io::Result<()> {
    if found.len() < MOST && !found.as_slice().contains(&one) {
        found.push(one)?;
    }
    Ok(())
}

fn add_found(found: &mut Vec<Identity>, one: Option<Identity>) -> io::Result<()> {
    match one {
        Some(one) => add(found, one),
        None => Ok(()),
    }
}

/// Adds the device with a number, if there is one.
fn add_device(found: &mut Vec<Identity>, number: Option<u64>) -> io::Result<()> {
    match number {
        Some(number) => add(found, Identity::of_device(number)),
        None => Ok(()),
    }
}

/// The number of the device about which the kernel has this folder.
fn number_of(rt: &HostRuntime, folder: &str) -> io::Result<Option<u64>> {
    number_in(rt, name_in(rt, folder, "dev")?.as_str())
}

/// Whether a folder has a file of this name.
fn has_mark(rt: &HostRuntime, folder: &str, mark: &str) -> io::Result<bool> {
    let name = name_in(rt, folder, mark)?;
    Ok(found_as(rt, name.as_str())?.is_some())
}

/// Adds the device about which the kernel has this folder, if that has a file of this name.
fn add_marked(
    rt: &HostRuntime,
    folder: &str,
    mark: &str,
    found: &mut Vec<Identity>,
) -> io::Result<()> {
    if !has_mark(rt, folder, mark)? {
        return Ok(());
    }
    add_device(found, number_of(rt, folder)?)
}

/// Adds the devices that a folder of the kernel's has. Each has an entry there, which has a file of this name.
fn add_listed(
    rt: &HostRuntime,
    folder: &str,
    mark: &str,
    found: &mut Vec<Identity>,
) -> io::Result<()> {
    let Some(entries) = if_told(fs::read_dir(rt, folder))? else {
        return Ok(());
    };
    for entry in entries {
        match if_told(entry)? {
            Some(entry) => add_marked(rt, entry.path().as_str(), mark, found)?,
            None => return Ok(()),
        }
    }
    Ok(())
}

/// The same for a folder that the kernel has about a device.
fn add_listed_of(
    rt: &HostRuntime,
    number: u64,
    what: &str,
    mark: &str,
    found: &mut Vec<Identity>,
) -> io::Result<()> {
    add_listed(rt, name_of(rt, number, what)?.as_str(), mark, found)
}

/// The name of a device's node by what the kernel tells of the device.
fn node_told(rt: &HostRuntime, told: &[u8]) -> io::Result<Option<String>> {
    match node_name(told) {
        Some(name) => Ok(Some(format!(in rt.alloc(); "/dev/{name}")?)),
        None => Ok(None),
    }
}

/// What a file of the kernel's tells of a device, if it can be read.
fn read_of(rt: &HostRuntime, number: u64, what: &str) -> io::Result<Option<Vec<u8>>> {
    read_if_told(rt, name_of(rt, number, what)?.as_str())
}

/// The name of a device's node, if the kernel tells it.
fn told_node(rt: &HostRuntime, number: u64) -> io::Result<Option<String>> {
    match read_of(rt, number, "uevent")? {
        Some(told) => node_told(rt, told.as_slice()),
        None => Ok(None),
    }
}

/// The name of a device's node, or its number if the kernel doesn't tell the name.
fn node_of(rt: &HostRuntime, number: u64) -> io::Result<String> {
    match told_node(rt, number)? {
        Some(name) => Ok(name),
        None => device_text(rt, number),
    }
}

/// Whether a device is a partition.
fn is_partition(rt: &HostRuntime, number: u64) -> io::Result<bool> {
    let name = name_of(rt, number, "partition")?;
    Ok(found_as(rt, name.as_str())?.is_some())
}

/// The disk of which a device is a partition.
fn disk_of(rt: &HostRuntime, number: u64) -> io::Result<Option<u64>> {
    if !is_partition(rt, number)? {
        return Ok(None);
    }
    number_in(rt, name_of(rt, number, "../dev")?.as_str())
}

/// The name that a file of the kernel's holds, if it is text.
fn name_held(rt: &HostRuntime, text: &[u8]) -> io::Result<Option<String>> {
    match str::from_utf8(text) {
        Ok(name) => Ok(Some(String::from_str(rt.alloc(), name.trim_ascii())?)),
        Err(_) => Ok(None),
    }
}

/// The name of the file or device of which a loop device is made. The kernel has this folder about the loop device.
fn backing_name(rt: &HostRuntime, folder: &str) -> io::Result<Option<String>> {
    match read_if_told(rt, name_in(rt, folder, "loop/backing_file")?.as_str())? {
        Some(text) => name_held(rt, text.as_slice()),
        None => Ok(None),
    }
}

/// The block device that the table of mounts names so.
fn device_named(rt: &HostRuntime, printed: &str) -> io::Result<Option<Identity>> {
    if !printed.starts_with("/dev/") {
        return Ok(None);
    }
    match found_as(rt, name_printed(rt, printed)?.as_str())? {
        Some(named) if named.is_device() => Ok(Some(named)),
        _ => Ok(None),
    }
}

/// The device on which a mount's file system lies. Some file systems have a number of their own, and name the device.
fn device_of_mount(rt: &HostRuntime, mount: MountLine<'_>) -> io::Result<Option<Identity>> {
    match read_number(mount.device.as_bytes()) {
        Some(number) if !is_anonymous(number) => Ok(Some(Identity::of_device(number))),
        _ => device_named(rt, mount.source),
    }
}

/// Adds the device on which a mount's file system lies, if a mount was found.
fn add_of_mount(
    rt: &HostRuntime,
    mount: Option<MountLine<'_>>,
    found: &mut Vec<Identity>,
) -> io::Result<()> {
    match mount {
        Some(mount) => add_found(found, device_of_mount(rt, mount)?),
        None => Ok(()),
    }
}

/// Adds the device that the table of mounts names for the file system with this number.
fn add_mounted(rt: &HostRuntime, number: u64, found: &mut Vec<Identity>) -> io::Result<()> {
    let device = device_text(rt, number)?;
    match read_mounts(rt)? {
        Some(table) => add_of_mount(rt, find_mount(table.as_slice(), device.as_str()), found),
        None => Ok(()),
    }
}

/// Adds the device on which the file system with this number lies.
fn add_file_system(rt: &HostRuntime, number: u64, found: &mut Vec<Identity>) -> io::Result<()> {
    if is_anonymous(number) {
        add_mounted(rt, number, found)
    } else {
        add(found, Identity::of_device(number))
    }
}

/// Adds the device on which the file system of the mount with this number lies.
fn add_numbered(rt: &HostRuntime, number: &str, found: &mut Vec<Identity>) -> io::Result<()> {
    match read_mounts(rt)? {
        Some(table) => add_of_mount(rt, find_mount_by_number(table.as_slice(), number), found),
        None => Ok(()),
    }
}

/// Adds the device on which the file system lies through which a file was opened.
fn add_mount(rt: &HostRuntime, file: &File, found: &mut Vec<Identity>) -> io::Result<()> {
    let Some(told) = read_told(rt, file)? else {
        return Ok(());
    };
    match mount_number(told.as_slice()) {
        Some(number) => add_numbered(rt, number, found),
        None => Ok(()),
    }
}

/// Adds the device on which the file with a name lies, if it can be opened.
fn add_mount_of(rt: &HostRuntime, name: &str, found: &mut Vec<Identity>) -> io::Result<()> {
    match if_told(File::open(rt, name))? {
        Some(file) => add_mount(rt, &file, found),
        None => Ok(()),
    }
}

/// Adds the file or device with a name, and the device on which such a file lies.
fn add_named(rt: &HostRuntime, name: &str, found: &mut Vec<Identity>) -> io::Result<()> {
    let Some(one) = found_as(rt, name)? else {
        return Ok(());
    };
    add(found, one)?;
    if one.is_device() {
        Ok(())
    } else {
        add_mount_of(rt, name, found)
    }
}

/// The name of the file or device of which a loop device with this number is made.
fn backing_of(rt: &HostRuntime, number: u64) -> io::Result<Option<String>> {
    backing_name(rt, name_of(rt, number, "")?.as_str())
}

/// Adds the file or device of which a loop device is made, and the device on which such a file lies.
fn add_backing(rt: &HostRuntime, number: u64, found: &mut Vec<Identity>) -> io::Result<()> {
    match backing_of(rt, number)? {
        Some(name) => add_named(rt, name.as_str(), found),
        None => Ok(()),
    }
}

/// Adds what a file or a device lies on, one step down.
fn add_under(rt: &HostRuntime, one: Identity, found: &mut Vec<Identity>) -> io::Result<()> {
    let number = one.device();
    if !one.is_device() {
        return add_file_system(rt, number, found);
    }
    add_device(found, disk_of(rt, number)?)?;
    add_listed_of(rt, number, "slaves", "dev", found)?;
    add_backing(rt, number, found)
}

/// Adds all that lies below what was found.
fn add_all_under(rt: &HostRuntime, found: &mut Vec<Identity>) -> io::Result<()> {
    for place in 0..MOST {
        let Some(one) = found.as_slice().get(place).copied() else {
            return Ok(());
        };
        add_under(rt, one, found)?;
    }
    Ok(())
}

/// Adds an open file, and the device on which its file system lies.
fn add_open(rt: &HostRuntime, file: &File, found: &mut Vec<Identity>) -> io::Result<()> {
    let one = Identity::of(&file.metadata()?);
    add(found, one)?;
    if one.is_device() {
        Ok(())
    } else {
        add_mount(rt, file, found)
    }
}

/// A file or a block device, and what it lies on, down to disks: a partition's disk, the devices of which another one
/// is made, the file of a loop device, and the device of a file's file system.
pub fn find_under(rt: &HostRuntime, one: Identity) -> io::Result<Vec<Identity>> {
    let mut found = Vec::new(rt.alloc());
    add(&mut found, one)?;
    add_all_under(rt, &mut found)?;
    Ok(found)
}

/// The same of an open file, whose mount the kernel tells.
pub fn find_under_open(rt: &HostRuntime, file: &File) -> io::Result<Vec<Identity>> {
    let mut found = Vec::new(rt.alloc());
    add_open(rt, file, &mut found)?;
    add_all_under(rt, &mut found)?;
    Ok(found)
}

/// Adds a device's partitions, the devices that are made of it, and so on to their ends.
fn add_above(rt: &HostRuntime, found: &mut Vec<Identity>) -> io::Result<()> {
    for place in 0..MOST {
        let Some(one) = found.as_slice().get(place).copied() else {
            return Ok(());
        };
        add_listed_of(rt, one.device(), "", "partition", found)?;
        add_listed_of(rt, one.device(), "holders", "dev", found)?;
    }
    Ok(())
}

/// A block device, its partitions, and the devices that are made of these.
fn find_above(rt: &HostRuntime, number: u64) -> io::Result<Vec<Identity>> {
    let mut found = Vec::new(rt.alloc());
    add(&mut found, Identity::of_device(number))?;
    add_above(rt, &mut found)?;
    Ok(found)
}

/// Which one of these devices a mount's file system lies on.
fn mounted_among(
    rt: &HostRuntime,
    mount: MountLine<'_>,
    devices: &[Identity],
) -> io::Result<Option<Identity>> {
    match device_of_mount(rt, mount)? {
        Some(device) if devices.contains(&device) => Ok(Some(device)),
        _ => Ok(None),
    }
}

/// The use of a device by a mount, if it is one of these devices.
fn use_by_mount(
    rt: &HostRuntime,
    mount: MountLine<'_>,
    devices: &[Identity],
) -> io::Result<Option<DeviceUse>> {
    match mounted_among(rt, mount, devices)? {
        Some(device) => Ok(Some(DeviceUse {
            device: node_of(rt, device.device())?,
            user: User::Mount(name_printed(rt, mount.folder)?),
        })),
        None => Ok(None),
    }
}

/// The mount of one of these devices that a table tells first.
fn find_mounted(
    rt: &HostRuntime,
    table: &[u8],
    devices: &[Identity],
) -> io::Result<Option<DeviceUse>> {
    for line in table.split(is_newline) {
        if let Some(mount) = MountLine::read(line) {
            let found = use_by_mount(rt, mount, devices)?;
            if found.is_some() {
                return Ok(found);
            }
        }
    }
    Ok(None)
}

/// The file or device with the first of two names, or else with the second one.
fn found_as_either(rt: &HostRuntime, name: &str, other: &str) -> io::Result<Option<Identity>> {
    match found_as(rt, name)? {
        Some(found) => Ok(Some(found)),
        None => found_as(rt, other),
    }
}

/// The swap space that a line of its table tells. If its name was removed, and made again, the table still calls it
/// removed.
fn swap_space(rt: &HostRuntime, line: &[u8]) -> io::Result<Option<Identity>> {
    let Some(printed) = swap_name(line) else {
        return Ok(None);
    };
    let name = name_printed(rt, printed)?;
    found_as_either(rt, name.as_str(), without_mark(name.as_str()))
}

/// The use of a device as swap space.
fn use_as_swap(rt: &HostRuntime, space: Identity) -> io::Result<Option<DeviceUse>> {
    Ok(Some(DeviceUse {
        device: node_of(rt, space.device())?,
        user: User::Swap,
    }))
}

/// One of these devices that is swap space, by the table of that.
fn swap_in(rt: &HostRuntime, table: &[u8], devices: &[Identity]) -> io::Result<Option<DeviceUse>> {
    for line in table.split(is_newline) {
        match swap_space(rt, line)? {
            Some(space) if devices.contains(&space) => return use_as_swap(rt, space),
            _ => {}
        }
    }
    Ok(None)
}

/// One of these devices that is swap space.
fn find_swap(rt: &HostRuntime, devices: &[Identity]) -> io::Result<Option<DeviceUse>> {
    match read_if_told(rt, SWAPS)? {
        Some(table) => swap_in(rt, table.as_slice(), devices),
        None => Ok(None),
    }
}

/// A device that is made of the one with this number, by what the kernel lists as its holders.
fn holder_of(rt: &HostRuntime, number: u64) -> io::Result<Option<Identity>> {
    let mut holders = Vec::new(rt.alloc());
    add_listed_of(rt, number, "holders", "dev", &mut holders)?;
    Ok(holders.as_slice().first().copied())
}

/// The use of a device by another one, which is made of it.
fn use_by_device(rt: &HostRuntime, number: u64, user: u64) -> io::Result<Option<DeviceUse>> {
    Ok(Some(DeviceUse {
        device: node_of(rt, number)?,
        user: User::Device(node_of(rt, user)?),
    }))
}

/// One of these devices of which another one is made.
fn find_holder(rt: &HostRuntime, devices: &[Identity]) -> io::Result<Option<DeviceUse>> {
    for device in devices {
        if let Some(holder) = holder_of(rt, device.device())? {
            return use_by_device(rt, device.device(), holder.device());
        }
    }
    Ok(None)
}

/// Whether a name is that of one of these devices.
fn is_among(rt: &HostRuntime, name: &str, devices: &[Identity]) -> io::Result<bool> {
    match found_as(rt, name)? {
        Some(found) => Ok(devices.contains(&found)),
        None => Ok(false),
    }
}

/// The name of the node of a device about which the kernel has this folder.
fn node_in(rt: &HostRuntime, folder: &str) -> io::Result<Option<String>> {
    match number_of(rt, folder)? {
        Some(number) => Ok(Some(node_of(rt, number)?)),
        None => Ok(None),
    }
}

/// The use of a device by one about which the kernel has this folder.
fn use_in(rt: &HostRuntime, folder: &str, device: String) -> io::Result<Option<DeviceUse>> {
    match node_in(rt, folder)? {
        Some(name) => Ok(Some(DeviceUse {
            device,
            user: User::Device(name),
        })),
        None => Ok(None),
    }
}

/// A loop device that is made of one of these, about which the kernel has this folder.
fn looped_in(
    rt: &HostRuntime,
    folder: &str,
    devices: &[Identity],
) -> io::Result<Option<DeviceUse>> {
    let Some(name) = backing_name(rt, folder)? else {
        return Ok(None);
    };
    if !is_among(rt, name.as_str(), devices)? {
        return Ok(None);
    }
    use_in(rt, folder, name)
}

/// A loop device that is made of one of these, by the folders that the kernel has.
fn looped_among(
    rt: &HostRuntime,
    entries: ReadDir,
    devices: &[Identity],
) -> io::Result<Option<DeviceUse>> {
    for entry in entries {
        let Some(entry) = if_told(entry)? else {
            return Ok(None);
        };
        let found = looped_in(rt, entry.path().as_str(), devices)?;
        if found.is_some() {
            return Ok(found);
        }
    }
    Ok(None)
}

/// One of these devices of which a loop device is made.
fn find_looped(rt: &HostRuntime, devices: &[Identity]) -> io::Result<Option<DeviceUse>> {
    match if_told(fs::read_dir(rt, DISKS))? {
        Some(entries) => looped_among(rt, entries, devices),
        None => Ok(None),
    }
}

/// What is made of one of these devices.
fn find_made(rt: &HostRuntime, devices: &[Identity]) -> io::Result<Option<DeviceUse>> {
    match find_holder(rt, devices)? {
        Some(found) => Ok(Some(found)),
        None => find_looped(rt, devices),
    }
}

/// What uses one of these devices besides a mount.
fn find_unmounted(rt: &HostRuntime, devices: &[Identity]) -> io::Result<Option<DeviceUse>> {
    match find_swap(rt, devices)? {
        Some(found) => Ok(Some(found)),
        None => find_made(rt, devices),
    }
}

/// What uses one of these devices, if that is known, by the table of mounts.
fn find_use_of(
    rt: &HostRuntime,
    mounts: &Option<Vec<u8>>,
    devices: &[Identity],
) -> io::Result<Option<DeviceUse>> {
    let Some(table) = mounts else {
        return find_unmounted(rt, devices);
    };
    match find_mounted(rt, table.as_slice(), devices)? {
        Some(found) => Ok(Some(found)),
        None => find_unmounted(rt, devices),
    }
}

/// What uses a device, a partition of it, or a device that is made of these.
fn find_use_above(
    rt: &HostRuntime,
    mounts: &Option<Vec<u8>>,
    number: u64,
) -> io::Result<Option<DeviceUse>> {
    let devices = find_above(rt, number)?;
    find_use_of(rt, mounts, devices.as_slice())
}

/// What uses the disk of which a device is a partition.
fn find_use_of_disk(
    rt: &HostRuntime,
    mounts: &Option<Vec<u8>>,
    number: u64,
) -> io::Result<Option<DeviceUse>> {
    match disk_of(rt, number)? {
        Some(disk) => find_use_of(rt, mounts, &[Identity::of_device(disk)]),
        None => Ok(None),
    }
}

/// What keeps a block device from being written, if that is known: what uses it, a partition of it, its disk, or a
/// device that is made of these.
pub fn find_use(rt: &HostRuntime, number: u64) -> io::Result<Option<DeviceUse>> {
    let mounts = read_mounts(rt)?;
    match find_use_above(rt, &mounts, number)? {
        Some(found) => Ok(Some(found)),
        None => find_use_of_disk(rt, &mounts, number),
    }
}

/// How one of these devices is mounted: for writing, if one of the mounts is.
fn mounting_of(
    rt: &HostRuntime,
    table: &[u8],
    devices: &[Identity],
) -> io::Result<Option<Mounting>> {
    let mut found = None;
    for line in table.split(is_newline) {
        if let Some(mount) = MountLine::read(line) {
            if mounted_among(rt, mount, devices)?.is_some() {
                if mount.is_writable() {
                    return Ok(Some(Mounting::Writable));
                }
                found = Some(Mounting::ReadOnly);
            }
        }
    }
    Ok(found)
}

/// How a block device, a partition of it or a device that is made of these is mounted, if one is known to be.
pub fn find_mounting(rt: &HostRuntime, number: u64) -> io::Result<Option<Mounting>> {
    let devices = find_above(rt, number)?;
    match read_mounts(rt)? {
        Some(table) => mounting_of(rt, table.as_slice(), devices.as_slice()),
        None => Ok(None),
    }
}

/// The state of a device's disk, in the kernel's words.
fn state_of(rt: &HostRuntime, number: u64) -> io::Result<Option<Vec<u8>>> {
    match disk_of(rt, number)? {
        Some(_) => read_of(rt, number, "../device/state"),
        None => read_of(rt, number, "device/state"),
    }
}

/// Whether a disk in the state that the kernel tells answers no more.
fn is_told_lost(state: &[u8]) -> bool {
    match str::from_utf8(state) {
        Ok(state) => is_lost(state.trim_ascii()),
        Err(_) => false,
    }
}

/// Whether the kernel says that the disk of a device answers no more.
fn has_lost_disk(rt: &HostRuntime, number: u64) -> bool {
    match state_of(rt, number) {
        Ok(Some(state)) => is_told_lost(state.as_slice()),
        _ => false,
    }
}

/// Whether a block device is known to be gone: the kernel knows no device with this number any more, or says that its
/// disk answers no more.
pub fn is_gone(rt: &HostRuntime, number: u64) -> bool {
    let Ok(entry) = name_of(rt, number, "") else {
        return false;
    };
    if matches!(fs::exists(rt, entry.as_str()), Ok(false)) {
        matches!(fs::exists(rt, DEVICES), Ok(true))
    } else {
        has_lost_disk(rt, number)
    }
}
