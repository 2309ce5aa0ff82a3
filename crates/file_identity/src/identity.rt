//! Which file a name reaches, whatever the name.
use std::alloc::Global;
use std::cell::Cell;
use std::fs::Metadata;
use std::io;
use std::os::unix::fs::{FileTypeExt, MetadataExt};
use std::rc::Rc;

/// A file, whatever its names: where its file system lies and its number there. A block device is one file whatever
/// its nodes.
#[derive(Clone, Copy, Debug, PartialEq, Eq)]
pub struct Identity {
    device: u64,
    number: u64,
    is_device: bool,
}

impl Identity {
    /// The file of which this was found.
    pub fn of(found: &Metadata) -> Identity {
        if found.file_type().is_block_device() {
            return Identity::of_device(found.rdev());
        }
        Identity::of_file(found.dev(), found.ino())
    }

    /// The file with this number on the file system with this number.
    pub fn of_file(device: u64, number: u64) -> Identity {
        Identity {
            device,
            number,
            is_device: false,
        }
    }

    /// The block device with this number.
    pub fn of_device(device: u64) -> Identity {
        Identity {
            device,
            number: 0,
            is_device: true,
        }
    }

    /// The number of the block device, or of the file system on which the file lies.
    pub fn device(&self) -> u64 {
        self.device
    }

    /// Whether this is a block device.
    pub fn is_device(&self) -> bool {
        self.is_device
    }
}

/// The open input, if there is one. Who opens it notes it here, and who writes asks here what not to touch.
#[derive(Drop)]
pub struct OpenInput {
    noted: Rc<Cell<Option<Identity>>>,
}

impl OpenInput {
    /// No input is open.
    pub fn new(alloc: Global) -> io::Result<OpenInput> {
        match Rc::new(alloc, Cell::new(None)) {
            Ok(noted) => Ok(OpenInput { noted }),
            Err(_) => Err(io::Error::from(io::ErrorKind::OutOfMemory)),
        }
    }

    /// A second holder of this note: each sees which input the other notes.
    pub fn share(&self) -> io::Result<OpenInput> {
        let noted = self.noted.clone()?;
        Ok(OpenInput { noted })
    }

    /// Notes which input is open from here on.
    pub fn note(&self, input: Option<Identity>) {
        self.noted.set(input);
    }

    /// The open input, if one is noted.
    pub fn noted(&self) -> Option<Identity> {
        self.noted.get()
    }

    /// Whether this file is the open input.
    pub fn is(&self, found: Identity) -> bool {
        self.noted.get() == Some(found)
    }
}
