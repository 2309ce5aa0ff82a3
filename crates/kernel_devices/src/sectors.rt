//! The sizes of a device's sectors, as the kernel tells them.
ghost use Rattle.std.specs.Prelude.{◌≡◌, ◌↔◌, IsTrue};
ghost use Rattle.kernel_devices.specs.Devices.{major_of};

use crate::device_texts::major;
use crate::mounts::device_text;
use std::fs;

/// What a file of the kernel's about a device tells.
fn text_of(rt: &HostRuntime, device: &str, folder: &str, what: &str) -> Option<String> {
    let name = format!(in rt.alloc(); "/sys/dev/block/{device}/{folder}/{what}").ok()?;
    fs::read_to_string(rt, name.as_str()).ok()
}

/// What the kernel tells of a device's queue. A partition has that of its disk.
fn queue_text(rt: &HostRuntime, device: &str, what: &str) -> Option<String> {
    match text_of(rt, device, "queue", what) {
        Some(text) => Some(text),
        None => text_of(rt, device, "../queue", what),
    }
}

/// A number that the kernel tells of a device's queue.
fn queue_number(rt: &HostRuntime, number: u64, what: &str) -> Option<u64> {
    let device = device_text(rt, number).ok()?;
    let text = queue_text(rt, device.as_str(), what)?;
    text.as_str().trim_ascii().parse().ok()
}

/// The kernel's major number of optical drives.
const OPTICAL: u64 = 11;

/// Whether a block device with this number is an optical drive, which looks at its disc at each open.
pub fn is_optical(number: u64) -> bool
    ensures { IsTrue result ↔ (major_of number ≡ 11) }
{
    major(number) == OPTICAL
}

/// The least unit in bytes that a block device with this number can be asked for, if it is known.
pub fn logical_sector(rt: &HostRuntime, number: u64) -> Option<u64> {
    queue_number(rt, number, "logical_block_size")
}

/// The least unit in bytes that the medium of a block device with this number holds, if it is known.
pub fn physical_sector(rt: &HostRuntime, number: u64) -> Option<u64> {
    queue_number(rt, number, "physical_block_size")
}
