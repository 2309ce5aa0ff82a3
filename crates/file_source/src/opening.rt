//! How an input that is a real file or device is opened.
ghost use Rattle.std.specs.Prelude.{◌<◌, ◌^◌, IfOk};

use file_identity::identity::Identity;
use kernel_devices::descriptor::{is_direct, open_again};
use kernel_devices::devices::is_gone;
use kernel_devices::release::caches_by_page;
use kernel_devices::sectors::{is_optical, logical_sector, physical_sector};
use real_files::direct::DirectFile;
use real_files::launcher::{Launcher, Readiness};
use std::fs::{self, File, Metadata};
use std::io::{self, ErrorKind, Seek, SeekFrom};
use std::os::unix::fs::{FileTypeExt, MetadataExt};

/// A file that was opened, and its length.
#[derive(Drop)]
pub(crate) struct Input {
    /// Open through the kernel's cache.
    pub file: File,
    /// Open past it, if it is to be read so.
    pub direct: Option<DirectFile>,
    pub length: u64,
    pub identity: Identity,
    /// Whether a bad sector costs its neighbors: it is a block device that is read through the kernel's cache, whose
    /// pages are larger than its sectors.
    pub loses_neighbors: bool,
    /// Whether the kernel's read-ahead is asked for again after a failed read: it is a disk that is read through the
    /// cache, which holds single pages.
    pub renews: bool,
    /// Whether a launcher may ask for a stop, or has the file read past the kernel's cache.
    pub is_led: bool,
    /// Whether a stop was asked for since it was opened.
    pub is_stopped: bool,
}

impl Input {
    /// Whether the input still reaches as far as its opening told, and isn't known to be gone.
    fn is_there(&mut self, rt: &HostRuntime) -> bool {
        let reaches = matches!(self.file.seek(SeekFrom::End(0)), Ok(end) if end >= self.length);
        let identity = self.identity;
        reaches && !(identity.is_device() && is_gone(rt, identity.device()))
    }

    /// Opens the file once more, so that the kernel reads ahead of it again. It takes most of its read-ahead away at
    /// each read that fails, and reads page by page after a few. A kernel that caches larger pieces than pages loses
    /// more to a bad sector the more it reads ahead, so it is left as it is.
    fn renew_read_ahead(&mut self, rt: &HostRuntime) {
        if self.renews
            && let Ok(file) = open_again(rt, &self.file)
        {
            self.file = file;
        }
    }

    /// Whether the input is still there after a read that didn't give all that it asked for.
    pub fn stays(&mut self, rt: &HostRuntime) -> bool {
        self.renew_read_ahead(rt);
        self.is_there(rt)
    }
}

/// How many bytes a read past the kernel's cache asks for at most, and as many again as its place may need.
const DIRECT_ROOM: usize = (1 << 20) + 4096;

/// The size of a page of the kernel's cache in bytes.
const PAGE: u64 = 4096;

/// The sector of most disks in bytes, for a device whose own isn't known.
const SECTOR: u16 = 512;

/// The unit of reads past the kernel's cache: a device's own sector, or a file's block.
fn direct_unit(rt: &HostRuntime, found: &Metadata) -> u16 {
    let unit = if found.file_type().is_block_device() {
        logical_sector(rt, found.rdev())
    } else {
        Some(found.blksize())
    };
    match unit {
        Some(unit) if unit.is_power_of_two() => u16::try_from(unit).unwrap_or(SECTOR),
        _ => SECTOR,
    }
}

/// An open file to be read past the kernel's cache, and the same file open through it.
fn direct_file(rt: &HostRuntime, file: File, found: &Metadata) -> io::Result<(DirectFile, File)> {
    let Ok(room) = vec![in rt.alloc(); 0; DIRECT_ROOM] else {
        return Err(ErrorKind::OutOfMemory.into());
    };
    let through = open_again(rt, &file)?;
    let cached = open_again(rt, &file)?;
    let direct = DirectFile::new(file, through, room, direct_unit(rt, found));
    Ok((direct, cached))
}

/// Whether a device's physical sectors are known to be smaller than a page.
fn has_small_sectors(rt: &HostRuntime, found: &Metadata) -> bool {
    match physical_sector(rt, found.rdev()) {
        Some(sector) => sector < PAGE,
        None => false,
    }
}

/// What the launcher, if there is one, says of the input that was opened.
fn readiness(launcher: &mut Option<Launcher>) -> Readiness {
    match launcher {
        Some(launcher) => launcher.wait_ready(),
        None => Readiness::Ready,
    }
}

/// Whether there is a launcher that may ask for a stop.
fn is_told(launcher: &Option<Launcher>) -> bool {
    match launcher {
        Some(launcher) => launcher.is_there(),
        None => false,
    }
}

/// Opens a file to read it, with the place of its end, which is the size of a block device too. A fifo would wait for
/// its writer. The launcher can have the open file read past the kernel's cache.
pub(crate) fn open_to_read(
    rt: &HostRuntime,
    launcher: &mut Option<Launcher>,
    name: &str,
) -> io::Result<Input>
    ensures { IfOk result (λ input. input.length < 2 ^ 63) }
{
    if fs::metadata(rt, name)?.file_type().is_fifo() {
        return Err(ErrorKind::NotSeekable.into());
    }
    let mut file = File::open(rt, name)?;
    let found = file.metadata()?;
    if found.is_dir() {
        return Err(ErrorKind::IsADirectory.into());
    }
    let length = file.seek(SeekFrom::End(0))?;
    if length >= 1 << 63 {
        return Err(ErrorKind::FileTooLarge.into());
    }
    let readiness = readiness(launcher);
    if readiness == Readiness::Refused {
        return Err(ErrorKind::Unsupported.into());
    }
    let (direct, file) = if is_direct(rt, &file)? {
        let (direct, file) = direct_file(rt, file, &found)?;
        (Some(direct), file)
    } else {
        (None, file)
    };
    let is_cached_device = found.file_type().is_block_device() && direct.is_none();
    Ok(Input {
        is_led: direct.is_some() || is_told(launcher),
        file,
        direct,
        length,
        identity: Identity::of(&found),
        loses_neighbors: is_cached_device && has_small_sectors(rt, &found),
        renews: is_cached_device && !is_optical(found.rdev()) && caches_by_page(rt),
        is_stopped: readiness == Readiness::Stop,
    })
}
