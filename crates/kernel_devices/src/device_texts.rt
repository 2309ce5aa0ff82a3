//! What the kernel's texts about devices say, each read from any bytes.
ghost use Rattle.std.specs.Prelude.{◌≡◌, ◌^◌, ◌<◌, ◌↔◌, IsTrue, IfSome};
ghost use Rattle.kernel_devices.specs.Devices.{is_given_up_state, is_lost_state, is_offline_state, major_of, minor_of};

/// The first number past the kernel's major numbers.
const MAJORS: u64 = 1 << 12;

/// The first number past the kernel's minor numbers.
const MINORS: u64 = 1 << 20;

/// The number of a device by its major and its minor number.
fn device_number(major: u64, minor: u64) -> u64
    requires major { major < 2 ^ 12 }
    requires minor { minor < 2 ^ 20 }
    ensures major { major_of result ≡ major }
    ensures minor { minor_of result ≡ minor }
{
    (minor / 256) * MINORS + major * 256 + minor % 256
}

/// Reads a number that is below an end.
fn read_below(text: &str, end: u64) -> Option<u64>
    ensures { IfSome result (λ number. number < end) }
{
    let number: u64 = text.parse().ok()?;
    if number < end { Some(number) } else { None }
}

/// Reads a device's number as the kernel prints it, as `8:1`.
pub(crate) fn read_number(text: &[u8]) -> Option<u64> {
    let text = str::from_utf8(text).ok()?;
    let (major, minor) = text.trim_ascii().split_once(":")?;
    Some(device_number(read_below(major, MAJORS)?, read_below(minor, MINORS)?))
}

/// The major number of a device with this number.
pub(crate) fn major(number: u64) -> u64
    ensures { result ≡ major_of number }
{
    (number / 256) % MAJORS
}

/// Whether a number is a file system's own, and no device's.
pub(crate) fn is_anonymous(number: u64) -> bool
    ensures { IsTrue result ↔ (major_of number ≡ 0) }
{
    major(number) == 0
}

/// Whether a disk in this state answers no more, in the words of SCSI.
fn is_offline(state: &str) -> bool
    ensures { result ≡ is_offline_state state.now }
{
    state == "offline" || state == "transport-offline" || state == "cancel" || state == "deleted"
}

/// Whether a disk in this state answers no more, in the words of NVMe.
fn is_given_up(state: &str) -> bool
    ensures { result ≡ is_given_up_state state.now }
{
    state == "dead" || state == "deleting" || state == "deleting (no IO)"
}

/// Whether a disk in this state answers no more, in the words of SCSI and of NVMe.
pub(crate) fn is_lost(state: &str) -> bool
    ensures { result ≡ is_lost_state state.now }
{
    is_offline(state) || is_given_up(state)
}

/// The name of swap space as the kernel's table prints it, by its line there.
pub(crate) fn swap_name(line: &[u8]) -> Option<&str> {
    let line = str::from_utf8(line).ok()?;
    let name = line.split_ascii_whitespace().next()?;
    if name.starts_with("/") {
        Some(name)
    } else {
        None
    }
}

/// The word that follows a mark in what the kernel tells.
pub(crate) fn word_after<'a>(told: &'a [u8], mark: &str) -> Option<&'a str> {
    let told = str::from_utf8(told).ok()?;
    let (_, rest) = told.split_once(mark)?;
    rest.split_ascii_whitespace().next()
}

/// The number of the mount through which a file was opened, by what the kernel tells of the open file.
pub(crate) fn mount_number(told: &[u8]) -> Option<&str> {
    word_after(told, "mnt_id:")
}

/// The name of a device's node below `/dev`, by what the kernel tells of the device.
pub(crate) fn node_name(told: &[u8]) -> Option<&str> {
    word_after(told, "DEVNAME=")
}
