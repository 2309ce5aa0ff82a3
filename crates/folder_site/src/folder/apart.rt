//! The files that no mapfile and no draft may be, and what may not be written since it is the infile's.
use file_identity::identity::{Identity, OpenInput};
use kernel_devices::devices::find_under;
use kernel_files::kernel::Kernel;
use std::io::{self, ErrorKind};

/// The files that no mapfile and no draft may be: the open input and the open image.
#[derive(Drop)]
pub(super) struct Apart<'a> {
    input: &'a Option<OpenInput>,
    image: Option<Identity>,
}

impl<'a> Apart<'a> {
    /// The files to keep apart: the open input and the open image, if there are any.
    pub fn new(input: &'a Option<OpenInput>, image: Option<Identity>) -> Apart<'a> {
        Apart { input, image }
    }

    /// Refuses a file that is the input or the image under another name.
    pub fn check(&self, identity: Identity) -> io::Result<()> {
        check_input(self.input, identity)?;
        match self.image {
            Some(image) if image == identity => Err(ErrorKind::ResourceBusy.into()),
            _ => Ok(()),
        }
    }

    /// Refuses a mapfile whose folder lies on the input.
    pub fn check_folder<K: Kernel>(&self, kernel: &K, name: &str) -> io::Result<()> {
        check_folder(kernel, self.input, name)
    }
}

/// The open input, if there is one.
fn noted(input: &Option<OpenInput>) -> Option<Identity> {
    match input {
        Some(input) => input.noted(),
        None => None,
    }
}

/// Refuses a file that is the input.
pub(super) fn check_input(input: &Option<OpenInput>, identity: Identity) -> io::Result<()> {
    match input {
        Some(input) if input.is(identity) => Err(ErrorKind::ResourceBusy.into()),
        _ => Ok(()),
    }
}

/// Refuses what lies on the input, and what the input lies on. Two regular files that aren't one lie apart.
pub(super) fn check_overlap<K: Kernel>(
    rt: &HostRuntime,
    kernel: &K,
    input: &Option<OpenInput>,
    file: &K::Open,
    written: Identity,
) -> io::Result<()> {
    let Some(input) = noted(input) else {
        return Ok(());
    };
    if !input.is_device() && !written.is_device() {
        return Ok(());
    }
    if kernel.beneath(file)?.as_slice().contains(&input)
        || find_under(rt, input)?.as_slice().contains(&written)
    {
        return Err(ErrorKind::CrossesDevices.into());
    }
    Ok(())
}

/// Refuses a new file in a folder that lies on the input. No device lies on a folder.
pub(super) fn check_folder<K: Kernel>(
    kernel: &K,
    input: &Option<OpenInput>,
    name: &str,
) -> io::Result<()> {
    match noted(input) {
        Some(device) if device.is_device() => {
            let folder = kernel.open_folder(name)?;
            if kernel.beneath_folder(&folder)?.as_slice().contains(&device) {
                return Err(ErrorKind::CrossesDevices.into());
            }
            Ok(())
        }
        _ => Ok(()),
    }
}
