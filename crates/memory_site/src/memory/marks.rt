//! Which bytes of the files in memory aren't durable, and which of them are lost.
#![tactic(auto, using(crate::proofs::MarkLemmas::mark_lemmas))]

ghost use Rattle.std.specs.Prelude.{◌≡◌, ℕ, ◌++◌, length, codes, List, Some, None, IfOk, OnOk};
ghost use Rattle.crash_site.specs.Files.{File, bytes_of, draft_of, put};
ghost use Rattle.memory_site.specs.CallLog.{call_of};
ghost use Rattle.memory_site.specs.Marks.{marked_of, with_marks, marked_at, cleared, cleared_if_absent, range_lost, all_lost, lost_loose, range_written, part_marked, return_marked, failed_marked};
ghost use Rattle.memory_site.specs.MemoryFolder.{folder_of};

use crate::memory::call_log::Act;
use crate::memory::memory_folder::{MemoryFolder, draft_name, fits};
use std::alloc::{AllocError, Global};

/// Marks under each name: of the bytes that aren't durable, and of those that are lost. A byte that isn't 0 marks its
/// place.
#[derive(Drop)]
pub(crate) struct Marks {
    alloc: Global,
    loose: MemoryFolder,
    lost: MemoryFolder,
}

/// Puts this mark at each place of a range.
fn mark_range(
    marks: &mut MemoryFolder,
    alloc: Global,
    name: &[u8],
    pos: u64,
    len: usize,
    mark: u8,
) -> Result<(), AllocError>
    ensures { OnOk result ((folder_of marks.new).files ≡ put (folder_of marks.old).files name.now
        (with_marks mark pos len ((folder_of marks.old).files name.now))) }
{
    let pos = pos as usize;
    if !fits(pos, len) {
        return Err(AllocError);
    }
    let range = vec![in alloc; mark; len]?;
    marks.write_at(name, pos, range.as_slice())
}

impl Marks {
    /// Nothing is marked.
    pub(crate) fn new(alloc: Global) -> Marks
        ensures loose { (n : List ℕ) → (marked_of result).loose n ≡ None }
        ensures lost { (n : List ℕ) → (marked_of result).lost n ≡ None }
    {
        Marks {
            alloc,
            loose: MemoryFolder::new(alloc),
            lost: MemoryFolder::new(alloc),
        }
    }

    /// The marks of what is lost under a name.
    pub(crate) fn lost_of(&self, name: &[u8]) -> &[u8]
        ensures { result.now ≡ bytes_of ((marked_of self.now).lost name.now) }
    {
        match self.lost.file(name) {
            None => &[],
            Some(marks) => marks,
        }
    }

    /// Takes away the marks under a name.
    fn clear(&mut self, name: &[u8])
        ensures { marked_of self.new ≡ cleared name.now (marked_of self.old) }
    {
        self.loose.remove(name);
        self.lost.remove(name);
    }

    /// Takes away the marks under a name if no file reads there.
    fn clear_if_absent(&mut self, reads: &MemoryFolder, name: &[u8])
        ensures { marked_of self.new ≡ cleared_if_absent ((folder_of reads.now).files name.now) name.now
            (marked_of self.old) }
    {
        if !reads.has(name) {
            self.clear(name);
        }
    }

    /// Marks a range of the image as written.
    fn write(&mut self, reads: &MemoryFolder, pos: u64, len: usize) -> Result<(), AllocError>
        ensures { OnOk result (marked_of self.new ≡ marked_at (folder_of reads.now).image
            (range_written (folder_of reads.now) pos len) (marked_of self.old)) }
    {
        let Some(image) = &reads.image else {
            return Ok(());
        };
        let name = image.as_slice();
        self.clear_if_absent(reads, name);
        mark_range(&mut self.loose, self.alloc, name, pos, len, 1)?;
        mark_range(&mut self.lost, self.alloc, name, pos, len, 0)
    }

    /// Marks a range of the image as lost.
    fn lose(&mut self, reads: &MemoryFolder, pos: u64, len: usize) -> Result<(), AllocError>
        ensures { OnOk result (marked_of self.new ≡ marked_at (folder_of reads.now).image (range_lost pos len)
            (marked_of self.old)) }
    {
        let Some(image) = &reads.image else {
            return Ok(());
        };
        mark_range(&mut self.lost, self.alloc, image.as_slice(), pos, len, 1)
    }

    /// Marks all of the image as lost that isn't durable.
    fn lose_all(&mut self, reads: &MemoryFolder) -> Result<(), AllocError>
        ensures { OnOk result (marked_of self.new ≡ marked_at (folder_of reads.now).image all_lost
            (marked_of self.old)) }
    {
        let Some(image) = &reads.image else {
            return Ok(());
        };
        let loose = self.loose.copy_file(image.as_slice())?;
        self.lost.put(image.as_slice(), loose)
    }

    /// Marks all of the image as durable that isn't lost.
    fn sync(&mut self, reads: &MemoryFolder) -> Result<(), AllocError>
        ensures { OnOk result (marked_of self.new ≡ marked_at (folder_of reads.now).image lost_loose
            (marked_of self.old)) }
    {
        let Some(image) = &reads.image else {
            return Ok(());
        };
        let lost = self.lost.copy_file(image.as_slice())?;
        self.loose.put(image.as_slice(), lost)
    }

    /// Takes away the marks under a mapfile's draft's name if no file reads there.
    fn settle(&mut self, reads: &MemoryFolder, name: &[u8]) -> Result<(), AllocError>
        ensures { OnOk result (marked_of self.new
            ≡ cleared_if_absent ((folder_of reads.now).files (draft_of name.now)) (draft_of name.now)
            (marked_of self.old)) }
    {
        let draft = draft_name(self.alloc, name)?;
        self.clear_if_absent(reads, draft.as_slice());
        Ok(())
    }

    /// Takes away the marks under a name if a draft is published there.
    fn publish(&mut self, reads: &MemoryFolder, name: &[u8])
        ensures { marked_of self.new ≡ marked_at (folder_of reads.now).draft (λ draft. cleared name.now)
            (marked_of self.old) }
    {
        if reads.draft.is_some() {
            self.clear(name);
        }
    }

    /// Marks what a call changed that was made in any part.
    pub(crate) fn change(&mut self, reads: &MemoryFolder, act: &Act) -> Result<(), AllocError>
        ensures { OnOk result (marked_of self.new
            ≡ part_marked (call_of act.now) (folder_of reads.now) (marked_of self.old)) }
    {
        match act {
            Act::ImageOpen(name, make) => {
                if *make {
                    self.clear_if_absent(reads, name.as_slice());
                }
                Ok(())
            }
            Act::ImageWrite(pos, piece) => self.write(reads, *pos, piece.len()),
            Act::DraftPublish(name) => {
                self.publish(reads, name.as_slice());
                Ok(())
            }
            Act::MapSettle(name) => self.settle(reads, name.as_slice()),
            Act::MapRemove(name) => {
                self.clear(name.as_slice());
                Ok(())
            }
            Act::ImageRead(_, _, _) => Ok(()),
            Act::ImageSync => Ok(()),
            Act::MapRead(_, _, _, _) => Ok(()),
            Act::DraftBegin(_) => Ok(()),
            Act::DraftAppend(_) => Ok(()),
            Act::DraftSync => Ok(()),
        }
    }

    /// Marks what a call made durable that returned Ok.
    pub(crate) fn finish(&mut self, reads: &MemoryFolder, act: &Act) -> Result<(), AllocError>
        ensures { OnOk result (marked_of self.new
            ≡ return_marked (call_of act.now) (folder_of reads.now) (marked_of self.old)) }
    {
        match act {
            Act::ImageSync => self.sync(reads),
            Act::MapSettle(name) => {
                self.clear(name.as_slice());
                Ok(())
            }
            _ => Ok(()),
        }
    }

    /// Marks what a call lost that failed.
    pub(crate) fn fail(&mut self, reads: &MemoryFolder, act: &Act) -> Result<(), AllocError>
        ensures { OnOk result (marked_of self.new
            ≡ failed_marked (call_of act.now) (folder_of reads.now) (marked_of self.old)) }
    {
        match act {
            Act::ImageWrite(pos, piece) => self.lose(reads, *pos, piece.len()),
            Act::ImageSync => self.lose_all(reads),
            _ => Ok(()),
        }
    }
}
