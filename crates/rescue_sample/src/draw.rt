//! The bad sectors of a sample, and what a read of it gives.
ghost use Rattle.std.specs.Prelude.{◌≡◌, ℕ, ◌+◌, ◌*◌, ◌<◌, ◌≤◌, ◌^◌, true, false, nat_eq, map, length, take, IfOk, ◌/◌};
ghost use Rattle.std.specs.List.{range_with_len};
ghost use Rattle.faulty_source.specs.Got.{count_of, is_end};
ghost use Rattle.rescue_sample.specs.Sample.{IsSampleAnswer, bad_sectors, is_in_one, next_drawn, sample_byte, sector_meant};

use block_list::tiles::NoMemory;
use faulty_source::source::Got;
use std::alloc::Global;

/// The bytes of a sector.
const SECTOR: u64 = 512;

/// The value that follows one.
fn draw(value: u64) -> u64
    ensures { result ≡ next_drawn value }
{
    let next = value as u128 * 6_364_136_223_846_793_005 + 1_442_695_040_888_963_407;
    (next % (1 << 64)) as u64
}

/// The sector that a value means.
fn sector_of(kib: u64, value: u64) -> u64
    requires low { 0 < kib }
    requires high { kib ≤ 65536 }
    ensures { result ≡ sector_meant kib value }
{
    value / (1 << 33) % (2 * kib)
}

/// The bad sectors of a sample of `kib` KiB.
pub(crate) fn draw_sectors(alloc: Global, kib: u64) -> Result<Vec<u64>, NoMemory>
    requires low { 0 < kib }
    requires high { kib ≤ 65536 }
    ensures { IfOk result (λ sectors. sectors.items ≡ bad_sectors kib) }
{
    let mut sectors = Vec::new(alloc);
    let mut value = kib;
    let count = (kib / 64 + 1) as usize;
    while sectors.len() < count {
        value = draw(value);
        sectors.push(sector_of(kib, value))?;
    }
    Ok(sectors)
}

/// The first position of a sector from `pos` up to `end`, or `end`.
fn first_in(sector: u64, pos: u64, end: u64) -> u64
    requires { pos ≤ end }
    ensures low { pos ≤ result }
    ensures high { result ≤ end }
    ensures good { (x : ℕ) → pos ≤ x → x < result → nat_eq (x / 512) sector ≡ false }
    ensures stops { result < end → nat_eq (result / 512) sector ≡ true }
{
    let start = sector.saturating_mul(SECTOR).max(pos);
    if start < end && start / SECTOR == sector {
        start
    } else {
        end
    }
}

/// The first position of these sectors from `pos` up to `end`, or `end`.
fn first_bad(sectors: &[u64], pos: u64, end: u64) -> u64
    requires { pos ≤ end }
    ensures low { pos ≤ result }
    ensures high { result ≤ end }
    ensures good { (x : ℕ) → pos ≤ x → x < result → is_in_one sectors.now x ≡ false }
    ensures stops { result < end → is_in_one sectors.now result ≡ true }
{
    let mut stop = end;
    for sector in sectors {
        stop = first_in(*sector, pos, stop);
    }
    stop
}

/// What a read of `asked` bytes at a position gives, by the bad sectors of a sample.
pub(crate) fn answer(kib: u64, sectors: &[u64], pos: u64, asked: usize) -> Got
    requires place { pos + asked < 2 ^ 63 }
    requires small { kib ≤ 65536 }
    requires drawn { sectors.now ≡ bad_sectors kib }
    ensures { IsSampleAnswer kib pos asked (count_of result) (is_end result) }
{
    let end = (pos + asked as u64).min(kib * 1024).max(pos);
    let stop = first_bad(sectors, pos, end);
    let count = (stop - pos) as usize;
    if stop < end || count == asked {
        Got::Read(count)
    } else {
        Got::End(count)
    }
}

/// Writes a sample's bytes from a position on to the front of the buffer.
pub(crate) fn fill(pos: u64, count: usize, buf: &mut [u8])
    requires fits { count ≤ length buf.old }
    requires place { pos + count < 2 ^ 63 }
    ensures { take count buf.new ≡ map sample_byte (range_with_len pos count) }
{
    for i in 0..count {
        buf[i] = ((pos + i as u64) % 251) as u8;
    }
}
