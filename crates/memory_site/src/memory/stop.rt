//! What a stop of the machine leaves of the files.
ghost use Rattle.std.specs.Prelude.{◌≡◌, ℕ, ◌+◌, ◌≤◌, ◌++◌, nat_lt, length, List, slice_index_or, drop, true, Option, IfOk, OnOk, MatchOption, Some, None, is_some, if◌then◌else◌};
ghost use Rattle.crash_site.specs.Files.{File, bytes_of, empty_file, put};
ghost use Rattle.crash_site.specs.Calls.{Done, Failed, image_sync};
ghost use Rattle.crash_site.specs.Disk.{Disk, at_rest, entered};
ghost use Rattle.crash_site.specs.Left.{in_progress};
ghost use Rattle.memory_site.specs.FilesLeft.{spoilt_from, opened_over, written_on, published_as, with_some, moved_to, made_part, left_part, sure_name, left_entry, left_along, files_left};
ghost use Rattle.memory_site.specs.Marks.{marked_of, sure_marked};
ghost use Rattle.memory_site.specs.MemoryFolder.{folder_of};
ghost use Rattle.memory_site.specs.CallLog.{call_of, entry_of, entries_of};
ghost use Rattle.memory_site.specs.Stopped.{Replays};
ghost use Rattle.memory_site.specs.Places.{file_of};

use crate::memory::call_log::{Act, CallLog, LoggedCall};
use crate::memory::marks::Marks;
use crate::memory::memory_folder::{MemoryFolder, fits};
use crate::memory::places::MemoryFile;
use std::alloc::{AllocError, Global};

/// What a stop leaves of what wasn't durable.
#[derive(Clone, Copy, Debug, PartialEq, Eq)]
pub enum Left {
    /// Nothing.
    Oldest,
    /// All of it, also of the call in progress.
    Newest,
    /// All of it, also of the call in progress, but with other bytes in ranges that weren't synced and in texts that
    /// were published unsynced.
    Garbage,
}

/// The byte that is found where any may be.
const ANY: u8 = 0x5A;

/// Bytes that are written at a position.
#[derive(Clone, Copy)]
struct Written<'a> {
    pos: u64,
    piece: &'a [u8],
}

/// An absent file is made.
fn open(
    left: &mut MemoryFolder,
    reads: &MemoryFolder,
    alloc: Global,
    name: &[u8],
    make: bool,
) -> Result<(), AllocError>
    ensures { OnOk result ((folder_of left.new).files ≡ put (folder_of left.old).files name.now
        (opened_over make ((folder_of reads.now).files name.now) ((folder_of left.old).files name.now))) }
{
    if !make {
        return Ok(());
    }
    if reads.has(name) {
        return Ok(());
    }
    if left.has(name) {
        return Ok(());
    }
    let file = MemoryFile {
        bytes: Vec::new(alloc),
        regular: true,
    };
    left.put(name, Some(file))
}

/// The size of the file that a write goes to: an absent one is empty if none reads there either.
fn size_to_write(left: &MemoryFolder, reads: &MemoryFolder, name: &[u8]) -> Option<usize>
    ensures { MatchOption result (((folder_of left.now).files name.now ≡ None)
        × (is_some ((folder_of reads.now).files name.now) ≡ true))
        (λ size. (size ≡ length (bytes_of ((folder_of left.now).files name.now)))
        × ((folder_of left.now).files name.now ≡ None → (folder_of reads.now).files name.now ≡ None)) }
{
    match left.file(name) {
        Some(bytes) => Some(bytes.len()),
        None if reads.has(name) => None,
        None => Some(0),
    }
}

/// Bytes are written over a file that is there, or any others in their range and in the gap before it.
fn write_on(
    left: &mut MemoryFolder,
    reads: &MemoryFolder,
    alloc: Global,
    image: &[u8],
    written: Written<'_>,
    garbage: bool,
) -> Result<(), AllocError>
    ensures { OnOk result ((folder_of left.new).files ≡ put (folder_of left.old).files image.now
        (written_on garbage ((folder_of reads.now).files image.now) ((folder_of left.old).files image.now)
        written.entry.pos written.entry.piece.now)) }
{
    let Some(size) = size_to_write(left, reads, image) else {
        return Ok(());
    };
    let pos = written.pos as usize;
    let piece = written.piece;
    if !fits(pos, piece.len()) {
        return Err(AllocError);
    }
    if !garbage {
        return left.write_at(image, pos, piece);
    }
    let at = pos.min(size);
    let any = vec![in alloc; ANY; pos + piece.len() - at]?;
    left.write_at(image, at, any.as_slice())
}

/// A piece is written to the image, or other bytes.
fn write(
    left: &mut MemoryFolder,
    reads: &MemoryFolder,
    alloc: Global,
    written: Written<'_>,
    garbage: bool,
) -> Result<(), AllocError>
    ensures { OnOk result ((folder_of left.new).files ≡ with_some (folder_of reads.now).image
        (λ n. written_on garbage ((folder_of reads.now).files n) ((folder_of left.old).files n)
        written.entry.pos written.entry.piece.now)
        (folder_of left.old).files) }
{
    let Some(image) = &reads.image else {
        return Ok(());
    };
    write_on(left, reads, alloc, image.as_slice(), written, garbage)
}

/// The draft's file with one more piece.
fn longer(
    reads: &MemoryFolder,
    alloc: Global,
    draft: &[u8],
    piece: &[u8],
) -> Result<Vec<u8>, AllocError>
    ensures { IfOk result (λ bytes. bytes.items ≡ bytes_of ((folder_of reads.now).files draft.now) ++ piece.now) }
{
    let mut bytes = match reads.file(draft) {
        None => Vec::new(alloc),
        Some(text) => Vec::from_slice(alloc, text)?,
    };
    bytes.extend_from_slice(piece)?;
    Ok(bytes)
}

/// A piece is added to the draft.
fn append(
    left: &mut MemoryFolder,
    reads: &MemoryFolder,
    alloc: Global,
    piece: &[u8],
) -> Result<(), AllocError>
    ensures { OnOk result ((folder_of left.new).files ≡ with_some (folder_of reads.now).draft
        (λ n. Some (record { bytes = bytes_of ((folder_of reads.now).files n) ++ piece.now; regular = true }))
        (folder_of left.old).files) }
{
    let Some(draft) = &reads.draft else {
        return Ok(());
    };
    let file = MemoryFile {
        bytes: longer(reads, alloc, draft.as_slice(), piece)?,
        regular: true,
    };
    left.put(draft.as_slice(), Some(file))
}

/// The draft's file as a publish leaves it, or any bytes in its place.
fn published(
    reads: &MemoryFolder,
    alloc: Global,
    draft: &[u8],
    firm: bool,
    garbage: bool,
) -> Result<Option<MemoryFile>, AllocError>
    ensures { IfOk result (λ file. file_of file
        ≡ published_as garbage firm ((folder_of reads.now).files draft.now)) }
{
    let file = reads.copy_file(draft)?;
    if !garbage || firm {
        return Ok(file);
    }
    let Some(text) = file else {
        return Ok(None);
    };
    Ok(Some(MemoryFile {
        bytes: vec![in alloc; ANY; text.bytes.len()]?,
        regular: true,
    }))
}

/// The draft is published.
fn publish(
    left: &mut MemoryFolder,
    reads: &MemoryFolder,
    alloc: Global,
    firm: bool,
    name: &[u8],
    garbage: bool,
) -> Result<(), AllocError>
    ensures { OnOk result ((folder_of left.new).files ≡ moved_to (folder_of reads.now).draft name.now
        (λ n. published_as garbage firm ((folder_of reads.now).files n)) (folder_of left.old).files) }
{
    let Some(draft) = &reads.draft else {
        return Ok(());
    };
    let file = published(reads, alloc, draft.as_slice(), firm, garbage)?;
    left.remove(draft.as_slice());
    left.put(name, file)
}

/// An empty file is put under a name.
fn begin(left: &mut MemoryFolder, alloc: Global, name: &[u8]) -> Result<(), AllocError>
    ensures { OnOk result ((folder_of left.new).files ≡ put (folder_of left.old).files name.now (Some empty_file)) }
{
    let file = MemoryFile {
        bytes: Vec::new(alloc),
        regular: true,
    };
    left.put(name, Some(file))
}

/// What a call leaves that was made, with other bytes where any may be, or not.
fn leave_made(
    left: &mut MemoryFolder,
    reads: &MemoryFolder,
    alloc: Global,
    firm: bool,
    garbage: bool,
    act: &Act,
) -> Result<(), AllocError>
    ensures { OnOk result ((folder_of left.new).files
        ≡ made_part garbage (call_of act.now) (folder_of reads.now) firm (folder_of left.old).files) }
{
    match act {
        Act::ImageOpen(name, make) => open(left, reads, alloc, name.as_slice(), *make),
        Act::ImageWrite(pos, piece) => {
            let written = Written {
                pos: *pos,
                piece: piece.as_slice(),
            };
            write(left, reads, alloc, written, garbage)
        }
        Act::DraftBegin(name) => begin(left, alloc, name.as_slice()),
        Act::DraftAppend(piece) => append(left, reads, alloc, piece.as_slice()),
        Act::DraftPublish(name) => publish(left, reads, alloc, firm, name.as_slice(), garbage),
        Act::MapRemove(name) => {
            left.remove(name.as_slice());
            Ok(())
        }
        Act::ImageRead(_, _, _) => Ok(()),
        Act::ImageSync => Ok(()),
        Act::MapRead(_, _, _, _) => Ok(()),
        Act::DraftSync => Ok(()),
        Act::MapSettle(_) => Ok(()),
    }
}

/// What a call leaves that was made in any part.
fn leave(
    left: &mut MemoryFolder,
    reads: &MemoryFolder,
    alloc: Global,
    firm: bool,
    kind: Left,
    act: &Act,
) -> Result<(), AllocError>
    ensures { OnOk result ((folder_of left.new).files
        ≡ left_part kind (call_of act.now) (folder_of reads.now) firm (folder_of left.old).files) }
{
    match kind {
        Left::Oldest => Ok(()),
        Left::Newest => leave_made(left, reads, alloc, firm, false, act),
        Left::Garbage => leave_made(left, reads, alloc, firm, true, act),
    }
}

/// Puts other bytes wherever there is a mark.
fn spoil(bytes: &mut [u8], marks: &[u8])
    ensures { bytes.new ≡ spoilt_from (λ x. nat_lt 0 (slice_index_or marks.now x 0)) 0 bytes.old }
{
    for i in 0..bytes.len().min(marks.len()) {
        if marks[i] > 0 {
            bytes[i] = ANY;
        }
    }
}

/// An image as it reads, or with other bytes wherever it is lost.
fn synced(
    reads: &MemoryFolder,
    marks: &Marks,
    image: &[u8],
    kind: Left,
) -> Result<Option<MemoryFile>, AllocError>
    ensures { IfOk result (λ file. file_of file
        ≡ sure_marked image_sync kind (folder_of reads.now) (marked_of marks.now).lost image.now) }
{
    let file = reads.copy_file(image)?;
    match kind {
        Left::Oldest => Ok(file),
        Left::Newest => Ok(file),
        Left::Garbage => {
            let Some(mut read) = file else {
                return Ok(None);
            };
            spoil(&mut read.bytes, marks.lost_of(image));
            Ok(Some(read))
        }
    }
}

/// The image is synced.
fn sync(
    left: &mut MemoryFolder,
    reads: &MemoryFolder,
    marks: &Marks,
    kind: Left,
) -> Result<(), AllocError>
    ensures { OnOk result ((folder_of left.new).files ≡ with_some (folder_of reads.now).image
        (sure_marked image_sync kind (folder_of reads.now) (marked_of marks.now).lost) (folder_of left.old).files) }
{
    let Some(image) = &reads.image else {
        return Ok(());
    };
    let file = synced(reads, marks, image.as_slice(), kind)?;
    left.put(image.as_slice(), file)
}

/// A mapfile is settled.
fn settle(left: &mut MemoryFolder, reads: &MemoryFolder, name: &[u8]) -> Result<(), AllocError>
    ensures { OnOk result ((folder_of left.new).files
        ≡ put (folder_of left.old).files name.now ((folder_of reads.now).files name.now)) }
{
    let file = reads.copy_file(name)?;
    left.put(name, file)
}

/// What a call that returned Ok makes sure.
fn make_sure(
    left: &mut MemoryFolder,
    reads: &MemoryFolder,
    marks: &Marks,
    kind: Left,
    act: &Act,
) -> Result<(), AllocError>
    ensures { OnOk result ((folder_of left.new).files ≡ with_some (sure_name (call_of act.now) (folder_of reads.now))
        (sure_marked (call_of act.now) kind (folder_of reads.now) (marked_of marks.now).lost)
        (folder_of left.old).files) }
{
    match act {
        Act::ImageSync => sync(left, reads, marks, kind),
        Act::MapSettle(name) => settle(left, reads, name.as_slice()),
        _ => Ok(()),
    }
}

/// Whether the draft is synced after a call.
fn firm_after(firm: bool, act: &Act, failed: bool) -> bool
    ensures { (d : Disk) (steps : ℕ) → d.firm ≡ firm
        → (entered d (if failed then Failed (call_of act.now) steps else Done (call_of act.now))).firm ≡ result }
{
    match act {
        Act::DraftBegin(_) => false,
        Act::DraftAppend(_) => false,
        Act::DraftSync => firm || !failed,
        _ => firm,
    }
}

/// Files as they read and files that a stop may have left, along the calls of a record.
#[derive(Drop)]
pub(crate) struct Replay {
    alloc: Global,
    kind: Left,
    reads: MemoryFolder,
    left: MemoryFolder,
    marks: Marks,
    firm: bool,
}

impl Replay {
    fn new(alloc: Global, kind: Left, start: &MemoryFolder) -> Result<Replay, AllocError>
        ensures replays { IfOk result (λ replay. Replays replay (at_rest (folder_of start.now))
            (folder_of start.now).files) }
        ensures kind { IfOk result (λ replay. replay.kind ≡ kind) }
    {
        Ok(Replay {
            alloc,
            kind,
            reads: start.copy()?,
            left: start.copy()?,
            marks: Marks::new(alloc),
            firm: false,
        })
    }

    /// Leaves what a call does that was made in any part.
    fn leave(&mut self, act: &Act) -> Result<(), AllocError>
        ensures left { OnOk result ((folder_of self.new.left).files ≡ left_part self.old.kind (call_of act.now)
            (folder_of self.old.reads) self.old.firm (folder_of self.old.left).files) }
        ensures reads { self.new.reads ≡ self.old.reads }
        ensures marks { self.new.marks ≡ self.old.marks }
        ensures firm { self.new.firm ≡ self.old.firm }
        ensures kind { self.new.kind ≡ self.old.kind }
    {
        leave(
            &mut self.left,
            &self.reads,
            self.alloc,
            self.firm,
            self.kind,
            act,
        )
    }

    /// Makes a call again that failed after this many steps.
    fn fail(&mut self, act: &Act, steps: u64) -> Result<(), AllocError>
        ensures replays { OnOk result ((d : Disk) (files : List ℕ → Option File) → Replays self.old d files
            → Replays self.new (entered d (Failed (call_of act.now) steps))
            (left_entry self.old.kind d (Failed (call_of act.now) steps) files)) }
        ensures kind { self.new.kind ≡ self.old.kind }
    {
        self.leave(act)?;
        self.marks.change(&self.reads, act)?;
        self.marks.fail(&self.reads, act)?;
        self.reads.fail_again(act, steps)?;
        self.firm = firm_after(self.firm, act, true);
        Ok(())
    }

    /// Makes a call again that returned Ok.
    fn make(&mut self, act: &Act) -> Result<(), AllocError>
        ensures replays { OnOk result ((d : Disk) (files : List ℕ → Option File) → Replays self.old d files
            → Replays self.new (entered d (Done (call_of act.now)))
            (left_entry self.old.kind d (Done (call_of act.now)) files)) }
        ensures kind { self.new.kind ≡ self.old.kind }
    {
        self.leave(act)?;
        make_sure(&mut self.left, &self.reads, &self.marks, self.kind, act)?;
        self.marks.change(&self.reads, act)?;
        self.marks.finish(&self.reads, act)?;
        self.reads.make_again(act)?;
        self.firm = firm_after(self.firm, act, false);
        Ok(())
    }

    /// Makes a call again.
    fn step(&mut self, listed: &LoggedCall) -> Result<(), AllocError>
        ensures replays { OnOk result ((d : Disk) (files : List ℕ → Option File) → Replays self.old d files
            → Replays self.new (entered d (entry_of listed.now))
            (left_entry self.old.kind d (entry_of listed.now) files)) }
        ensures kind { self.new.kind ≡ self.old.kind }
    {
        match listed.failed {
            Some(steps) => self.fail(&listed.act, steps),
            None => self.make(&listed.act),
        }
    }

    /// Leaves what the call after the first k does, which is in progress, if there is one.
    fn cut_off(&mut self, log: &CallLog, k: usize) -> Result<(), AllocError>
        requires { k ≤ length log.now.listed.items }
        ensures { OnOk result ((d : Disk) (files : List ℕ → Option File) → Replays self.old d files
            → (folder_of self.new.left).files
            ≡ left_along self.old.kind d files (in_progress (drop k (entries_of log.now)))) }
    {
        if k == log.listed.len() {
            return Ok(());
        }
        self.leave(&log.listed[k].act)?;
        Ok(())
    }
}

/// The files that a stop leaves when the first k calls have returned. No image is open there, and no draft begun.
pub(crate) fn left_at(
    alloc: Global,
    start: &MemoryFolder,
    log: &CallLog,
    k: usize,
    kind: Left,
) -> Result<MemoryFolder, AllocError>
    requires { k ≤ length log.now.listed.items }
    ensures left { IfOk result (λ left. (folder_of left).files
        ≡ files_left kind (folder_of start.now) (entries_of log.now) k) }
    ensures image { IfOk result (λ left. (folder_of left).image ≡ None) }
    ensures draft { IfOk result (λ left. (folder_of left).draft ≡ None) }
{
    let mut replay = Replay::new(alloc, kind, start)?;
    for i in 0..k {
        replay.step(&log.listed[i])?;
    }
    replay.cut_off(log, k)?;
    let mut left = replay.left;
    left.image = None;
    left.draft = None;
    Ok(left)
}
