//! The output: opened, read, written, synced.
ghost use Rattle.std.specs.Prelude.{◌≡◌, ◌+◌, ◌<◌, ◌≤◌, ◌^◌, true, false, not, is_some, length, string_bytes, OnOk, OnErr, IfOk, IfSome, IsSome, IsNone, IsTrue, Some, option_map};
ghost use Rattle.real_files.specs.Ahead.{nothing_held};
ghost use Rattle.crash_site.specs.FileAnswers.{is_absent, IsImageRead};
ghost use Rattle.kernel_files.specs.Volume.{folder_of};
ghost use Rattle.kernel_files.specs.Answers.{volume, bytes_at};
ghost use Rattle.kernel_files.specs.Steps.{MadeBy};
ghost use Rattle.kernel_files.specs.ImageCalls.{OpensOrMakes, BreaksMake, OpensImage, Writes, SyncsOpened, BreaksSyncsOpened};
ghost use Rattle.kernel_laws.specs.Refines.{as_file};
ghost use Rattle.folder_site.specs.Told.{IsHeld};
ghost use Rattle.folder_site.specs.Pieces.{BreaksWriteAt, BreaksOpenAt, SyncsOpen, BreaksSyncOpen};

use crate::folder::apart::{check_folder, check_input, check_overlap};
use crate::folder::names::{folder_for, open_found};
use crate::folder::nodes::check_no_node;
use crate::folder::pieces::{KernelCursor, read_whole, write_whole};
use crash_site::site::ImageKind;
use file_identity::identity::{Identity, OpenInput};
use kernel_devices::devices::find_use;
use kernel_files::kernel::Kernel;
use real_files::outcome::{if_allowed, in_use};
use real_files::read_ahead::ReadAhead;
use std::io::{self, ErrorKind};

/// An open image, and the folder in which it lies, if that could be opened.
#[derive(Drop)]
pub(super) struct OpenImage<K: Kernel> {
    pub file: K::Open,
    pub name: String,
    pub folder: Option<K::Folder>,
    regular: bool,
    /// Whether it was made or written.
    pub is_changed: bool,
    pub identity: Identity,
}

impl<K: Kernel> OpenImage<K> {
    /// Whether the image is a regular file or something else.
    pub fn kind(&self) -> ImageKind
        ensures there { is_absent result ≡ false }
        ensures regular { self.now.regular ≡ true → result ≡ ImageKind.Regular }
    {
        if self.regular {
            ImageKind::Regular
        } else {
            ImageKind::Other
        }
    }

    /// Reads at a place, as many bytes as there are and as the buffer takes.
    pub fn read(
        &self,
        kernel: &K,
        ahead: &mut ReadAhead,
        pos: u64,
        buf: &mut [u8],
    ) -> io::Result<usize>
        requires { pos + length buf.old < 2 ^ 63 }
        ensures count { IfOk result (λ n. n ≤ length buf.old) }
        ensures read { IfOk result (λ n. IsTrue (K.told kernel.now).tells
            → IsHeld (bytes_at (K.told kernel.now) (K.number self.now.file)) ahead.old
            → IsImageRead (as_file (Some (bytes_at (K.told kernel.now) (K.number self.now.file)))) pos buf.new n) }
        ensures held { IsTrue (K.told kernel.now).tells
            → IsHeld (bytes_at (K.told kernel.now) (K.number self.now.file)) ahead.old
            → IsHeld (bytes_at (K.told kernel.now) (K.number self.now.file)) ahead.new }
    {
        let mut cursor = KernelCursor::new(kernel, &self.file, pos);
        if ahead.give(&mut cursor, pos, u64::MAX, buf) {
            return Ok(buf.len());
        }
        read_whole(kernel, &self.file, pos, buf)
    }

    /// Writes a piece. What was read ahead may be other bytes from then on, and is dropped.
    pub fn write(
        &self,
        kernel: &mut K,
        ahead: &mut ReadAhead,
        pos: u64,
        piece: &[u8],
    ) -> io::Result<()>
        requires { pos + length piece.now < 2 ^ 63 }
        ensures ok { OnOk result (MadeBy (Writes (K.number self.now.file) pos piece.now)
            (K.told kernel.old) (K.told kernel.new)) }
        ensures err { OnErr result (MadeBy (BreaksWriteAt (K.number self.now.file) pos piece.now)
            (K.told kernel.old) (K.told kernel.new)) }
        ensures dropped { ahead.new ≡ nothing_held ahead.old.room }
    {
        ahead.begin_anew();
        write_whole(kernel, &self.file, pos, piece)
    }

    /// Makes the image durable, and its entry. On ext4 a flush succeeds although the kernel's own commit of what it
    /// covers has failed, but then the next change is refused. So a changed file is given the length that it has. A
    /// full disk may refuse that, too, and has kept what was flushed.
    pub fn sync(&self, kernel: &mut K) -> io::Result<()>
        ensures ok { OnOk result (MadeBy (SyncsOpened (K.number self.now.file) (option_map K.text self.now.folder))
            (K.told kernel.old) (K.told kernel.new)) }
        ensures err { OnErr result (MadeBy
            (BreaksSyncsOpened (K.number self.now.file) (option_map K.text self.now.folder))
            (K.told kernel.old) (K.told kernel.new)) }
    {
        sync_both(kernel, &self.file, &self.folder)?;
        if !self.regular || !self.is_changed {
            return Ok(());
        }
        keep_length(kernel, &self.file)?;
        Ok(())
    }
}

/// What an open answers of the image that it opened, if it opened one.
pub(super) fn kind_opened<K: Kernel>(image: &Option<OpenImage<K>>) -> ImageKind
    ensures there { is_some image.now ≡ not (is_absent result) }
    ensures regular { IfSome image.now (λ i. i.regular ≡ true → result ≡ ImageKind.Regular) }
    ensures absent { IsNone image.now → result ≡ ImageKind.Absent }
{
    match image {
        Some(image) => image.kind(),
        None => ImageKind::Absent,
    }
}

/// Whether a file is open as the image under this name.
pub(super) fn is_image<K: Kernel>(image: &Option<OpenImage<K>>, name: &str) -> bool
    ensures { result ≡ false → option_map (λ i. string_bytes i.name) image.now ≡ Some name.now → ⊥ }
{
    match image {
        Some(image) => image.name.as_str() == name,
        None => false,
    }
}

/// Which file is open as the image, if one is.
pub(super) fn identity_of<K: Kernel>(image: &Option<OpenImage<K>>) -> Option<Identity> {
    match image {
        Some(image) => Some(image.identity),
        None => None,
    }
}

/// Makes the image durable, and its entry. Without an image it makes no call.
pub(super) fn sync_image<K: Kernel>(kernel: &mut K, image: &Option<OpenImage<K>>) -> io::Result<()>
    ensures ok { OnOk result (MadeBy
        (SyncsOpen (option_map (λ i. (K.number i.file, option_map K.text i.folder)) image.now))
        (K.told kernel.old) (K.told kernel.new)) }
    ensures err { OnErr result (MadeBy
        (BreaksSyncOpen (option_map (λ i. (K.number i.file, option_map K.text i.folder)) image.now))
        (K.told kernel.old) (K.told kernel.new)) }
{
    match image {
        Some(image) => image.sync(kernel),
        None => Ok(()),
    }
}

/// Makes a file durable, and then its folder's entries, if that is open.
fn sync_both<K: Kernel>(
    kernel: &mut K,
    file: &K::Open,
    folder: &Option<K::Folder>,
) -> io::Result<()>
    ensures ok { OnOk result (MadeBy (SyncsOpened (K.number file.now) (option_map K.text folder.now))
        (K.told kernel.old) (K.told kernel.new)) }
    ensures err { OnErr result (MadeBy (BreaksSyncsOpened (K.number file.now) (option_map K.text folder.now))
        (K.told kernel.old) (K.told kernel.new)) }
{
    kernel.sync_file(file)?;
    if let Some(folder) = folder {
        kernel.sync_folder(folder)?;
    }
    Ok(())
}

/// Gives a file the length that it has.
fn keep_length<K: Kernel>(kernel: &K, file: &K::Open) -> io::Result<()> {
    let len = kernel.length(file)?;
    match kernel.set_length(file, len) {
        Err(error) if !is_full(&error) => Err(error),
        _ => Ok(()),
    }
}

/// Whether there was no room for a change.
fn is_full(error: &io::Error) -> bool {
    matches!(
        error.kind(),
        ErrorKind::StorageFull | ErrorKind::QuotaExceeded
    )
}

/// Refuses a device that is in use.
fn check_unused(rt: &HostRuntime, identity: Identity) -> io::Result<()> {
    if identity.is_device() && find_use(rt, identity.device())?.is_some() {
        return Err(in_use());
    }
    Ok(())
}

/// Opens a file as the image, and its folder. None if the file is absent and isn't to be made. A missing folder is
/// an error.
pub(super) fn open_image<K: Kernel>(
    rt: &HostRuntime,
    kernel: &mut K,
    input: &Option<OpenInput>,
    name: &str,
    make: bool,
) -> io::Result<Option<OpenImage<K>>>
    ensures made { IfOk result (λ image. make ≡ true → IsSome image) }
    ensures ok { IfOk result (λ image. MadeBy (OpensImage (volume (K.told kernel.old)) name.now make
        (option_map (λ i. K.number i.file) image)) (K.told kernel.old) (K.told kernel.new)) }
    ensures name { IfOk result (λ image. IfSome image (λ i. string_bytes i.name ≡ name.now)) }
    ensures regular { IfOk result (λ image. IfSome image (λ i. IsTrue (K.told kernel.new).tells
        → i.regular ≡ true)) }
    ensures folder { IfOk result (λ image. IfSome image (λ i. IfSome i.folder (λ folder.
        IsTrue (K.told kernel.new).tells → K.text folder ≡ folder_of name.now))) }
    ensures found { IfOk result (λ image. IfSome image (λ i. IsNone i.folder → IsTrue (K.told kernel.old).tells
        → (volume (K.told kernel.old)).names name.now ≡ Some (K.number i.file))) }
    ensures err { OnErr result (MadeBy (BreaksOpenAt (volume (K.told kernel.old)) name.now make)
        (K.told kernel.old) (K.told kernel.new)) }
{
    let copy = String::from_str(rt.alloc(), name)?;
    if let Some(file) = open_found(kernel, name)? {
        let image = take_image(rt, kernel, input, copy, file, false)?;
        return Ok(Some(image));
    }
    if !make {
        if_allowed(kernel.open_folder(name), false)?;
        return Ok(None);
    }
    let file = make_image(rt, kernel, input, name)?;
    let image = take_image(rt, kernel, input, copy, file, true)?;
    Ok(Some(image))
}

/// Makes a new file as the image. Its folder may neither lie on the input nor hold device nodes.
fn make_image<K: Kernel>(
    rt: &HostRuntime,
    kernel: &mut K,
    input: &Option<OpenInput>,
    name: &str,
) -> io::Result<K::Open>
    ensures ok { IfOk result (λ file. MadeBy (OpensOrMakes (volume (K.told kernel.old)) name.now (K.number file))
        (K.told kernel.old) (K.told kernel.new)) }
    ensures err { OnErr result (MadeBy (BreaksMake (volume (K.told kernel.old)) name.now)
        (K.told kernel.old) (K.told kernel.new)) }
{
    check_folder(kernel, input, name)?;
    check_no_node(rt, name)?;
    kernel.open_or_make(name)
}

/// Takes an open file as the image, if nothing speaks against it, and opens its folder.
fn take_image<K: Kernel>(
    rt: &HostRuntime,
    kernel: &K,
    input: &Option<OpenInput>,
    name: String,
    file: K::Open,
    made: bool,
) -> io::Result<OpenImage<K>>
    ensures file { IfOk result (λ image. K.number image.file ≡ K.number file) }
    ensures name { IfOk result (λ image. string_bytes image.name ≡ string_bytes name) }
    ensures regular { IfOk result (λ image. IsTrue (K.told kernel.now).tells → image.regular ≡ true) }
    ensures folder { IfOk result (λ image. IfSome image.folder (λ folder. IsTrue (K.told kernel.now).tells
        → K.text folder ≡ folder_of (string_bytes name))) }
    ensures made { IfOk result (λ image. made ≡ true → IsSome image.folder) }
{
    let found = kernel.met(&file)?;
    check_input(input, found.identity)?;
    check_overlap(rt, kernel, input, &file, found.identity)?;
    check_unused(rt, found.identity)?;
    kernel.lock(&file)?;
    let folder = folder_for(kernel, name.as_str(), made)?;
    Ok(OpenImage {
        file,
        name,
        folder,
        regular: found.is_file(),
        is_changed: made,
        identity: found.identity,
    })
}
