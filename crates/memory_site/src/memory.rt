//! An output and mapfiles in memory, which tell all and fail on request.
ghost use Rattle.fault_count.specs.Counts.{raised, HasCause};
ghost use Rattle.fault_count.specs.Schedule.{with_call, with_failing, with_failing_after, FailsNext};
ghost use Rattle.std.specs.Prelude.{not, ◌≡◌, ◌⊎◌, ℕ, ◌+◌, ◌<◌, ◌≤◌, ◌^◌, true, false, IsTrue, List, [], ◌∷◌, ◌++◌, length, take, slice_index_or, Some, None, is_some, IfOk, OnOk, OnErr, IsErr, MatchOption};
ghost use Rattle.crash_site.specs.Files.{File, put};
ghost use Rattle.crash_site.specs.FileAnswers.{kind_of, is_absent, IsRead, IsWithin, IsImageRead};
ghost use Rattle.crash_site.specs.Calls.{Entry, Done, image_open, image_read, image_write, image_sync, map_read, draft_begin, draft_append, draft_sync, draft_publish, map_settle, map_remove};
ghost use Rattle.crash_site.specs.CallsMade.{Lost, unanswered, call_name};
ghost use Rattle.crash_site.specs.Folder.{Folder, after};
ghost use Rattle.crash_site.specs.SiteChanges.{FailsBy};
ghost use Rattle.crash_site.specs.Changes.{call_in};
ghost use Rattle.memory_site.specs.Follows.{Follows, Follows-prop};
ghost use Rattle.memory_site.specs.MemoryFolder.{name_of, folder_of};
ghost use Rattle.crash_site.specs.Left.{MayBeLeft};
ghost use Rattle.memory_site.specs.FilesLeft.{files_left};
ghost use Rattle.memory_site.specs.CallLog.{call_of, entries_of, Missed, IsClosed};

use block_list::tiles::NoMemory;
use call_log::{Act, CallLog};
use crash_site::fault::fault;
use crash_site::site::{ImageKind, MapRead, Site, SiteCall, SiteFault};
use memory_folder::MemoryFolder;
use places::MemoryFile;
use std::alloc::{AllocError, Global};
use stop::{Left, left_at};

mod call_log;
mod marks;
mod memory_folder;
mod places;
pub mod stop;

/// Files in memory. It tells its beginning and its calls; a call fails whose number was handed to `fail_call` or
/// `fail_call_after`.
#[derive(Drop)]
pub struct MemorySite {
    alloc: Global,
    start: MemoryFolder,
    folder: MemoryFolder,
    log: CallLog,
    ghost follows: { Follows (folder_of folder)
        (after (folder_of start) (entries_of log)) } by { Follows-prop (folder_of folder)
            (after (folder_of start) (entries_of log)) },
}

impl MemorySite {
    ghost use Rattle.crash_site.specs.SiteState.{files_in};
    ghost use Rattle.crash_site.specs.SiteChanges.{fresh_site};
    ghost use Rattle.memory_site.specs.MemoryState.{open_image_name, begun_draft, state_of};

    /// No files, nothing open or begun, and no calls.
    pub fn new(alloc: Global) -> MemorySite
        ensures files { (n : List ℕ) → files_in (state_of result) n ≡ None }
        ensures state { state_of result ≡ fresh_site (files_in (state_of result)) }
    {
        MemorySite {
            alloc,
            start: MemoryFolder::new(alloc),
            folder: MemoryFolder::new(alloc),
            log: CallLog::new(alloc),
        }
    }

    /// Puts a file there, as another program would. The site begins anew from the files as they then read; the open
    /// image and the begun draft stay so, and the numbers of calls go on.
    pub fn put_file(&mut self, name: &str, bytes: &[u8], regular: bool) -> Result<(), NoMemory>
        ensures files { OnOk result ((n : List ℕ) → files_in (state_of self.new) n
            ≡ put (files_in (state_of self.old)) name.now (Some
            (record { bytes = bytes.now; regular = regular })) n) }
        ensures begins { OnOk result (state_of self.new
            ≡ record (state_of self.old) { start = (state_of self.new).start; calls = [] }) }
        ensures image { OnOk result ((state_of self.new).start.image ≡ open_image_name self.old) }
        ensures draft { OnOk result ((state_of self.new).start.draft ≡ begun_draft self.old) }
        ensures kept { OnErr result (state_of self.new ≡ state_of self.old) }
    {
        let (start, folder) = self.with_file(name.as_bytes(), bytes, regular)?;
        self.start = start;
        self.folder = folder;
        self.log.forget();
        Ok(())
    }

    /// The folder as it reads with one more file, twice.
    fn with_file(
        &self,
        name: &[u8],
        bytes: &[u8],
        regular: bool,
    ) -> Result<(MemoryFolder, MemoryFolder), AllocError>
        ensures same { IfOk result (λ pair. folder_of pair.0 ≡ folder_of pair.1) }
        ensures files { IfOk result (λ pair. (folder_of pair.1).files
            ≡ put (folder_of self.now.folder).files name.now
            (Some (record { bytes = bytes.now; regular = regular }))) }
        ensures image { IfOk result (λ pair. (folder_of pair.1).image ≡ (folder_of self.now.folder).image) }
        ensures draft { IfOk result (λ pair. (folder_of pair.1).draft ≡ (folder_of self.now.folder).draft) }
    {
        let file = MemoryFile {
            bytes: Vec::from_slice(self.alloc, bytes)?,
            regular,
        };
        let mut folder = self.folder.copy()?;
        folder.put(name, Some(file))?;
        Ok((folder.copy()?, folder))
    }

    /// Has the call with this number fail, counted from 1 over all calls.
    pub fn fail_call(&mut self, number: u64) -> Result<(), NoMemory>
        ensures added { OnOk result (state_of self.new ≡ record (state_of self.old)
            { schedule = with_failing number (state_of self.old).schedule }) }
        ensures kept { OnErr result (state_of self.new ≡ state_of self.old) }
    {
        self.fail_call_after(number, 0)
    }

    /// Has the call with this number fail after some of its steps, counted from 1 over all calls. Of a write or an
    /// append a step is a byte that is taken.
    pub fn fail_call_after(&mut self, number: u64, steps: u64) -> Result<(), NoMemory>
        ensures added { OnOk result (state_of self.new ≡ record (state_of self.old)
            { schedule = with_failing_after number steps (state_of self.old).schedule }) }
        ensures kept { OnErr result (state_of self.new ≡ state_of self.old) }
    {
        Ok(self.log.fail_call_after(number, steps)?)
    }

    /// The bytes of a file as it reads.
    pub fn file(&self, name: &str) -> Option<&[u8]>
        ensures { MatchOption result (files_in (state_of self.now) name.now ≡ None)
            (λ bytes. (f : File) × (files_in (state_of self.now) name.now ≡ Some f) × (bytes.now ≡ f.bytes)) }
    {
        self.folder.file(name.as_bytes())
    }

    /// Whether a draft is begun.
    pub fn is_drafting(&self) -> bool
        ensures { result ≡ (state_of self.now).is_drafting }
    {
        self.folder.draft.is_some()
    }

    /// How many calls the site lists.
    pub fn made(&self) -> usize
        ensures { result ≡ length (state_of self.now).calls }
    {
        self.log.listed.len()
    }

    /// The name of a listed call, counted from 0.
    pub fn call(&self, i: usize) -> SiteCall
        requires { i < length (state_of self.now).calls }
        ensures { (e : Entry) → result ≡ call_name (call_in (slice_index_or (state_of self.now).calls i e)) }
    {
        self.log.listed[i].act.name()
    }

    /// What a stop leaves when the first k listed calls have returned, and the next, if there is one, is in progress:
    /// a site that begins with these files.
    pub fn stopped_at(&self, alloc: Global, k: usize, left: Left) -> Result<MemorySite, NoMemory>
        requires { k ≤ length (state_of self.now).calls }
        ensures left { IfOk result (λ site. MayBeLeft (state_of self.now).start (state_of self.now).calls k
            (files_in (state_of site))) }
        ensures files { IfOk result (λ site. (n : List ℕ) → files_in (state_of site) n
            ≡ files_left left (state_of self.now).start (state_of self.now).calls k n) }
        ensures state { IfOk result (λ site. state_of site ≡ fresh_site (files_in (state_of site))) }
    {
        match self.stop(alloc, k, left) {
            Ok(site) => Ok(site),
            Err(_) => Err(NoMemory),
        }
    }

    fn stop(&self, alloc: Global, k: usize, left: Left) -> Result<MemorySite, AllocError>
        requires { k ≤ length (state_of self.now).calls }
        ensures left { IfOk result (λ site. MayBeLeft (state_of self.now).start (state_of self.now).calls k
            (files_in (state_of site))) }
        ensures files { IfOk result (λ site. (n : List ℕ) → files_in (state_of site) n
            ≡ files_left left (state_of self.now).start (state_of self.now).calls k n) }
        ensures state { IfOk result (λ site. state_of site ≡ fresh_site (files_in (state_of site))) }
    {
        let start = left_at(alloc, &self.start, &self.log, k, left)?;
        Ok(MemorySite {
            alloc,
            folder: start.copy()?,
            start,
            log: CallLog::new(alloc),
        })
    }

    /// How many calls found no memory.
    pub fn starved(&self) -> u64
        ensures { result ≡ (state_of self.now).starved }
    {
        self.log.starving.get()
    }
}

/// Lists a call that is to be made. One that is to fail makes its steps, unless it finds no memory.
fn enter(folder: &mut MemoryFolder, log: &mut CallLog, act: Act) -> Result<(), SiteFault>
    requires { IsClosed (folder_of folder.old) (call_of act) }
    ensures done { OnOk result (entries_of log.new ≡ entries_of log.old ++ Done (call_of act) ∷ []) }
    ensures kept { OnOk result (folder.new ≡ folder.old) }
    ensures lost { OnErr result (Lost (unanswered (call_of act)) (entries_of log.old) (entries_of log.new)) }
    ensures missed { OnErr result (Missed (call_of act) (entries_of log.old) (entries_of log.new)
        (folder_of folder.old) (folder_of folder.new)) }
    ensures image { (folder_of folder.new).image ≡ (folder_of folder.old).image }
    ensures draft { (folder_of folder.new).draft ≡ (folder_of folder.old).draft }
    ensures cause { HasCause log.old.faults log.new.faults result }
    ensures schedule { log.new.schedule ≡ with_call log.old.schedule }
    ensures fails { FailsNext log.old.schedule → IsErr result }
    ensures told { OnErr result (FailsBy log.old.schedule log.old.starving log.new.starving
        (unanswered (call_of act)) (entries_of log.old) (entries_of log.new)) }
    ensures fed { OnOk result (log.new.starving ≡ log.old.starving) }
{
    let Some(steps) = log.schedule.count_steps() else {
        log.list(act, None)?;
        return Ok(());
    };
    let Ok(failed) = folder.failed(&act, steps) else {
        return Err(log.starve());
    };
    log.list(act, Some(steps))?;
    *folder = failed;
    Err(fault(&mut log.faults))
}

impl Site for MemorySite {
    ghost use Rattle.memory_site.specs.MemoryState.{state_of};

    ghost state = { state_of };

    fn image_open(&mut self, name: &str, make: bool) -> Result<ImageKind, SiteFault> {
        self.folder.image = None;
        let name = name.as_bytes();
        let Ok(copied) = Vec::from_slice(self.alloc, name) else {
            return Err(self.log.miss());
        };
        enter(
            &mut self.folder,
            &mut self.log,
            Act::ImageOpen(copied, make),
        )?;
        let outcome = self.folder.open(name, make);
        self.log.settle(outcome)
    }

    fn image_read(&mut self, pos: u64, buf: &mut [u8]) -> Result<usize, SiteFault> {
        let asked = buf.len();
        let given = self.folder.read_image(pos, buf);
        enter(
            &mut self.folder,
            &mut self.log,
            Act::ImageRead(pos, asked, given),
        )?;
        Ok(given)
    }

    fn image_write(&mut self, pos: u64, piece: &[u8]) -> Result<(), SiteFault> {
        let Ok(copied) = Vec::from_slice(self.alloc, piece) else {
            return Err(self.log.miss());
        };
        enter(
            &mut self.folder,
            &mut self.log,
            Act::ImageWrite(pos, copied),
        )?;
        let outcome = self.folder.write(pos, piece);
        self.log.settle(outcome)
    }

    fn image_sync(&mut self) -> Result<(), SiteFault> {
        enter(&mut self.folder, &mut self.log, Act::ImageSync)
    }

    fn map_read(&mut self, name: &str, pos: u64, buf: &mut [u8]) -> Result<MapRead, SiteFault> {
        let Ok(copied) = Vec::from_slice(self.alloc, name.as_bytes()) else {
            return Err(self.log.miss());
        };
        let asked = buf.len();
        let answer = self.folder.read(name.as_bytes(), pos, buf);
        enter(
            &mut self.folder,
            &mut self.log,
            Act::MapRead(copied, pos, asked, answer),
        )?;
        Ok(answer)
    }

    fn draft_begin(&mut self, name: &str) -> Result<(), SiteFault> {
        self.folder.draft = None;
        let name = name.as_bytes();
        let Ok(copied) = Vec::from_slice(self.alloc, name) else {
            return Err(self.log.miss());
        };
        enter(&mut self.folder, &mut self.log, Act::DraftBegin(copied))?;
        let outcome = self.folder.begin(name);
        self.log.settle(outcome)
    }

    fn draft_append(&mut self, piece: &[u8]) -> Result<(), SiteFault> {
        let Ok(copied) = Vec::from_slice(self.alloc, piece) else {
            return Err(self.log.miss());
        };
        enter(&mut self.folder, &mut self.log, Act::DraftAppend(copied))?;
        let outcome = self.folder.append(piece);
        self.log.settle(outcome)
    }

    fn draft_sync(&mut self) -> Result<(), SiteFault> {
        enter(&mut self.folder, &mut self.log, Act::DraftSync)
    }

    fn draft_publish(&mut self, name: &str) -> Result<(), SiteFault> {
        let Some(draft) = self.folder.draft.take() else {
            unreachable!();
        };
        let name = name.as_bytes();
        let Ok(copied) = Vec::from_slice(self.alloc, name) else {
            return Err(self.log.miss());
        };
        enter(&mut self.folder, &mut self.log, Act::DraftPublish(copied))?;
        let outcome = self.folder.rename(draft.as_slice(), name);
        self.log.settle(outcome)
    }

    fn map_settle(&mut self, name: &str) -> Result<(), SiteFault> {
        let Ok(copied) = Vec::from_slice(self.alloc, name.as_bytes()) else {
            return Err(self.log.miss());
        };
        enter(&mut self.folder, &mut self.log, Act::MapSettle(copied))
    }

    fn map_remove(&mut self, name: &str) -> Result<(), SiteFault> {
        let name = name.as_bytes();
        let Ok(copied) = Vec::from_slice(self.alloc, name) else {
            return Err(self.log.miss());
        };
        enter(&mut self.folder, &mut self.log, Act::MapRemove(copied))?;
        self.folder.remove(name);
        Ok(())
    }
}
