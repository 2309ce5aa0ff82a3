//! The calls of a kernel on files.
ghost use Rattle.std.specs.Prelude.{◌≡◌, ◌+◌, ◌<◌, ◌≤◌, ◌^◌, ℕ, List, Some, None, IsSome, IsTrue, length, take, IfOk, IfErr, OnOk, OnErr};
ghost use Rattle.std.specs.IoError.{error_kind};
ghost use Rattle.kernel_files.specs.Volume.{create, write, append, sync_file, rename, unlink, sync_folder, folder_of, IsNew};
ghost use Rattle.kernel_files.specs.Answers.{Told, volume, bytes_at, Made, IsReadAt};
ghost use Rattle.kernel_files.specs.Steps.{MadeBy};
ghost use Rattle.kernel_files.specs.ImageCalls.{OpensOrMakes, BreaksMake};

use crate::standing::{Access, Kind, Standing};
use file_identity::identity::Identity;
use std::io::{self, ErrorKind};

/// Calls of the system on regular files. Each is one call of the kernel. A name that is absent is an error of the kind
/// `NotFound`.
pub trait Kernel: Drop {
    /// An open file.
    type Open: Drop;

    /// An open folder.
    type Folder: Drop;

    /// What it tells of itself.
    ghost told: { Self → Told };

    /// The number of an open file.
    ghost number: { Self.Open → ℕ };

    /// The text of the names in an open folder up to their last slash.
    ghost text: { Self.Folder → List ℕ };

    /// How many calls it tells.
    fn made(&self) -> usize
        ensures { IsTrue (told self.now).tells → result ≡ length (told self.now).calls };

    /// What has a name. A link is not followed.
    fn found(&self, name: &str) -> io::Result<Standing>
        ensures there { IfOk result (λ standing. IsTrue (told self.now).tells
            → (standing.kind ≡ Kind.File) × IsSome ((volume (told self.now)).names name.now)) }
        ensures absent { IfErr result (λ e. error_kind e ≡ ErrorKind.NotFound → IsTrue (told self.now).tells
            → (volume (told self.now)).names name.now ≡ None) };

    /// What a name reaches, by links too.
    fn reached(&self, name: &str) -> io::Result<Standing>
        ensures there { IfOk result (λ standing. IsTrue (told self.now).tells
            → (standing.kind ≡ Kind.File) × IsSome ((volume (told self.now)).names name.now)) }
        ensures absent { IfErr result (λ e. error_kind e ≡ ErrorKind.NotFound → IsTrue (told self.now).tells
            → (volume (told self.now)).names name.now ≡ None) };

    /// What an open file is.
    fn met(&self, file: &Self::Open) -> io::Result<Standing>
        ensures { IfOk result (λ standing. IsTrue (told self.now).tells → standing.kind ≡ Kind.File) };

    /// An open file, and what it lies on, down to disks.
    fn beneath(&self, file: &Self::Open) -> io::Result<Vec<Identity>>;

    /// The same of an open folder.
    fn beneath_folder(&self, folder: &Self::Folder) -> io::Result<Vec<Identity>>;

    /// Opens the file that a name reaches.
    fn open(&self, name: &str, access: Access) -> io::Result<Self::Open>
        ensures there { IfOk result (λ file. IsTrue (told self.now).tells
            → (volume (told self.now)).names name.now ≡ Some (number file)) }
        ensures absent { IfErr result (λ e. error_kind e ≡ ErrorKind.NotFound → IsTrue (told self.now).tells
            → (volume (told self.now)).names name.now ≡ None) };

    /// Opens the folder of a name.
    fn open_folder(&self, name: &str) -> io::Result<Self::Folder>
        ensures { IfOk result (λ folder. IsTrue (told self.now).tells → text folder ≡ folder_of name.now) };

    /// Opens the folder in which the file lies that a name reaches by links.
    fn open_target_folder(&self, name: &str) -> io::Result<Self::Folder>;

    /// Opens the file that a name reaches, to be read and written. If none is there it is made (`O_CREAT` without
    /// `O_EXCL`).
    fn open_or_make(&mut self, name: &str) -> io::Result<Self::Open>
        ensures ok { IfOk result (λ file. MadeBy (OpensOrMakes (volume (told self.old)) name.now (number file))
            (told self.old) (told self.new)) }
        ensures err { OnErr result (MadeBy (BreaksMake (volume (told self.old)) name.now)
            (told self.old) (told self.new)) };

    /// Makes a new file (`O_CREAT | O_EXCL`), open to be written. A name that is there already is an error.
    fn create_new(&mut self, name: &str) -> io::Result<Self::Open>
        ensures { (i : ℕ) × (IsTrue (told self.old).tells → IsNew (volume (told self.old)) i)
            × IfOk result (λ file. number file ≡ i)
            × OnOk result (IsTrue (told self.old).tells → (volume (told self.old)).names name.now ≡ None)
            × Made (create name.now i) result (told self.old) (told self.new) };

    /// Reads at a place of a file, some of the bytes that are there.
    fn read_at(&self, file: &Self::Open, pos: u64, buf: &mut [u8]) -> io::Result<usize>
        ensures same { length buf.new ≡ length buf.old }
        ensures count { IfOk result (λ n. n ≤ length buf.new) }
        ensures read { IfOk result (λ n. IsTrue (told self.now).tells
            → IsReadAt (bytes_at (told self.now) (number file.now)) pos buf.new n) };

    /// Writes at a place of a file, some bytes of the front of the piece. One that was interrupted did nothing.
    fn write_at(&mut self, file: &Self::Open, pos: u64, piece: &[u8]) -> io::Result<usize>
        ensures made { (n : ℕ) × (n ≤ length piece.now) × IfOk result (λ m. m ≡ n)
            × Made (write (number file.now) pos (take n piece.now)) result (told self.old) (told self.new) }
        ensures again { IfErr result (λ e. error_kind e ≡ ErrorKind.Interrupted → IsTrue (told self.old).tells
            → (told self.new).calls ≡ (told self.old).calls) };

    /// Writes at the end of a file that was made by `create_new` and only appended to since, some bytes of the front of
    /// the piece. One that was interrupted did nothing.
    fn append(&mut self, file: &Self::Open, piece: &[u8]) -> io::Result<usize>
        ensures made { (n : ℕ) × (n ≤ length piece.now) × IfOk result (λ m. m ≡ n)
            × Made (append (number file.now) (take n piece.now)) result (told self.old) (told self.new) }
        ensures again { IfErr result (λ e. error_kind e ≡ ErrorKind.Interrupted → IsTrue (told self.old).tells
            → (told self.new).calls ≡ (told self.old).calls) };

    /// How many bytes a file has.
    fn length(&self, file: &Self::Open) -> io::Result<u64>
        ensures { IfOk result (λ n. IsTrue (told self.now).tells
            → n ≡ length (bytes_at (told self.now) (number file.now))) };

    /// Gives a file the length that it has.
    fn set_length(&self, file: &Self::Open, len: u64) -> io::Result<()>
        requires { IsTrue (told self.now).tells → len ≡ length (bytes_at (told self.now) (number file.now)) };

    /// Makes a file's bytes durable.
    fn sync_file(&mut self, file: &Self::Open) -> io::Result<()>
        ensures { Made (sync_file (number file.now)) result (told self.old) (told self.new) };

    /// Makes the entries of a folder durable, if its file system can.
    fn sync_folder(&mut self, folder: &Self::Folder) -> io::Result<()>
        ensures { Made (sync_folder (text folder.now)) result (told self.old) (told self.new) };

    /// Gives a file another name, in the place of the file that had it.
    fn rename(&mut self, from: &str, to: &str) -> io::Result<()>
        ensures { Made (rename from.now to.now) result (told self.old) (told self.new) };

    /// Removes a name.
    fn unlink(&mut self, name: &str) -> io::Result<()>
        ensures made { Made (unlink name.now) result (told self.old) (told self.new) }
        ensures absent { IfErr result (λ e. error_kind e ≡ ErrorKind.NotFound → IsTrue (told self.old).tells
            → ((volume (told self.old)).names name.now ≡ None) × ((told self.new).calls ≡ (told self.old).calls)) };

    /// Removes a folder that is empty. What is no folder stays, and is an error.
    fn remove_folder(&self, name: &str) -> io::Result<()>;

    /// Locks a file. One that another run has locked is an error.
    fn lock(&self, file: &Self::Open) -> io::Result<()>;

    /// Gives a file an owner, if one is given, and a group.
    fn give(&self, file: &Self::Open, owner: Option<u32>, group: u32) -> io::Result<()>;

    /// Sets who may do what with a file.
    fn set_mode(&self, file: &Self::Open, mode: u32) -> io::Result<()>;
}
