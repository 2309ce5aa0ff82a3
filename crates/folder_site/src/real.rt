//! The calls of the system. They tell nothing.
ghost use Rattle.std.specs.Prelude.{false, []};
ghost use Rattle.kernel_files.specs.Log.{empty_volume};

use file_identity::identity::Identity;
use file_identity::names::folder_of;
use kernel_devices::devices::find_under_open;
use kernel_files::kernel::Kernel;
use kernel_files::standing::{Access, Standing};
use real_files::outcome::{folder_synced, not_held};
use std::fs::{self, File, OpenOptions, Permissions};
use std::io::{self, Write};
use std::os::unix::fs::{FileExt, PermissionsExt, fchown};

/// The files of the system.
#[derive(Drop)]
pub struct RealKernel {
    rt: HostRuntime,
}

impl RealKernel {
    /// The files of the system that runs this program.
    pub fn new(rt: HostRuntime) -> RealKernel {
        RealKernel { rt }
    }
}

impl Kernel for RealKernel {
    type Open = File;

    type Folder = File;

    ghost told = { λ k. record { tells = false; start = empty_volume; calls = [] } };

    ghost number = { λ file. 0 };

    ghost text = { λ folder. [] };

    fn made(&self) -> usize {
        0
    }

    fn found(&self, name: &str) -> io::Result<Standing> {
        Ok(Standing::of(&fs::symlink_metadata(&self.rt, name)?))
    }

    fn reached(&self, name: &str) -> io::Result<Standing> {
        Ok(Standing::of(&fs::metadata(&self.rt, name)?))
    }

    fn met(&self, file: &File) -> io::Result<Standing> {
        Ok(Standing::of(&file.metadata()?))
    }

    fn beneath(&self, file: &File) -> io::Result<Vec<Identity>> {
        find_under_open(&self.rt, file)
    }

    fn beneath_folder(&self, folder: &File) -> io::Result<Vec<Identity>> {
        find_under_open(&self.rt, folder)
    }

    fn open(&self, name: &str, access: Access) -> io::Result<File> {
        OpenOptions::new()
            .read(access != Access::Write)
            .write(access != Access::Read)
            .open(&self.rt, name)
    }

    fn open_folder(&self, name: &str) -> io::Result<File> {
        File::open(&self.rt, folder_of(name))
    }

    fn open_target_folder(&self, name: &str) -> io::Result<File> {
        let target = fs::canonicalize(&self.rt, name)?;
        File::open(&self.rt, folder_of(target.as_str()))
    }

    fn open_or_make(&mut self, name: &str) -> io::Result<File> {
        OpenOptions::new()
            .read(true)
            .write(true)
            .create(true)
            .open(&self.rt, name)
    }

    fn create_new(&mut self, name: &str) -> io::Result<File> {
        OpenOptions::new()
            .write(true)
            .create_new(true)
            .open(&self.rt, name)
    }

    fn read_at(&self, file: &File, pos: u64, buf: &mut [u8]) -> io::Result<usize> {
        file.read_at(buf, pos)
    }

    fn write_at(&mut self, file: &File, pos: u64, piece: &[u8]) -> io::Result<usize> {
        file.write_at(piece, pos)
    }

    fn append(&mut self, file: &File, piece: &[u8]) -> io::Result<usize> {
        let mut file = file;
        file.write(piece)
    }

    fn length(&self, file: &File) -> io::Result<u64> {
        Ok(file.metadata()?.len())
    }

    fn set_length(&self, file: &File, len: u64) -> io::Result<()> {
        file.set_len(len)
    }

    fn sync_file(&mut self, file: &File) -> io::Result<()> {
        file.sync_all()
    }

    fn sync_folder(&mut self, folder: &File) -> io::Result<()> {
        folder_synced(folder.sync_all())
    }

    fn rename(&mut self, from: &str, to: &str) -> io::Result<()> {
        fs::rename(&self.rt, from, to)
    }

    fn unlink(&mut self, name: &str) -> io::Result<()> {
        fs::remove_file(&self.rt, name)
    }

    fn remove_folder(&self, name: &str) -> io::Result<()> {
        fs::remove_dir(&self.rt, name)
    }

    fn lock(&self, file: &File) -> io::Result<()> {
        not_held(file.try_lock())
    }

    fn give(&self, file: &File, owner: Option<u32>, group: u32) -> io::Result<()> {
        fchown(file, owner, Some(group))
    }

    fn set_mode(&self, file: &File, mode: u32) -> io::Result<()> {
        file.set_permissions(Permissions::from_mode(mode))
    }
}
