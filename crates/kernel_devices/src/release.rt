//! Which release of Linux runs.
ghost use Rattle.std.specs.Prelude.{◌≡◌, ◌↔◌, ◌<◌, ◌⊎◌, IsTrue};

use std::fs;

/// Whether the kernel of a release, by its first two numbers, caches a device in single pages. From 6.15 on it may hold
/// larger pieces, and loses a whole one to a bad sector.
fn has_pages_alone(major: u64, minor: u64) -> bool
    ensures { IsTrue result ↔ ((major < 6) ⊎ ((major ≡ 6) × (minor < 15))) }
{
    major < 6 || major == 6 && minor < 15
}

/// A number in decimal digits.
fn number(digits: &[u8]) -> Option<u64> {
    str::from_utf8(digits).ok()?.parse().ok()
}

/// The first two numbers of a release, as 6 and 12 of `6.12.94-amd64`.
fn release_of(told: &[u8]) -> Option<(u64, u64)> {
    let mut numbers = told.split(|byte| !byte.is_ascii_digit());
    let major = number(numbers.next()?)?;
    let minor = number(numbers.next()?)?;
    Some((major, minor))
}

/// Whether the kernel that runs is known to cache a device in single pages.
pub fn caches_by_page(rt: &HostRuntime) -> bool {
    let Ok(told) = fs::read(rt, "/proc/sys/kernel/osrelease") else {
        return false;
    };
    match release_of(&told) {
        Some((major, minor)) => has_pages_alone(major, minor),
        None => false,
    }
}
