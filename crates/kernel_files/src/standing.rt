//! What has a name, or is open, and what a file is opened for.
ghost use Rattle.std.specs.Prelude.{◌≡◌, ◌↔◌, IsTrue};

use file_identity::identity::Identity;
use std::fs::Metadata;
use std::os::unix::fs::MetadataExt;

/// The kinds of files that calls tell apart.
#[derive(Clone, Copy, Debug, PartialEq, Eq)]
pub enum Kind {
    File,
    Folder,
    Link,
    Other,
}

/// What is to be done with a file that is opened.
#[derive(Clone, Copy, Debug, PartialEq, Eq)]
pub enum Access {
    Read,
    Write,
    Both,
}

/// Which file it is, of which kind, whose, and who may do what with it.
#[derive(Clone, Copy, Debug)]
pub struct Standing {
    pub identity: Identity,
    pub kind: Kind,
    pub owner: u32,
    pub group: u32,
    pub mode: u32,
}

impl Standing {
    /// What the system found.
    pub fn of(found: &Metadata) -> Standing {
        Standing {
            identity: Identity::of(found),
            kind: kind_of(found),
            owner: found.uid(),
            group: found.gid(),
            mode: found.mode(),
        }
    }

    /// A regular file with this number, on a file system of its own.
    pub(crate) fn of_number(number: u64) -> Standing
        ensures { result.kind ≡ Kind.File }
    {
        Standing {
            identity: Identity::of_file(0, number),
            kind: Kind::File,
            owner: 0,
            group: 0,
            mode: 0o644,
        }
    }

    /// Whether it is a regular file.
    pub fn is_file(&self) -> bool
        ensures { IsTrue result ↔ (self.now.kind ≡ Kind.File) }
    {
        self.kind == Kind::File
    }
}

fn kind_of(found: &Metadata) -> Kind {
    if found.is_file() {
        Kind::File
    } else if found.is_dir() {
        Kind::Folder
    } else if found.is_symlink() {
        Kind::Link
    } else {
        Kind::Other
    }
}
