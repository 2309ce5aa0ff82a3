//! The output and its folder of mapfiles as real files.
ghost use Rattle.std.specs.Prelude.{◌≡◌, None, is_some, Some, false, OnOk, OnErr, IfOk, IfErr, IsErr, IsTrue};
ghost use Rattle.fault_count.specs.Counts.{HasCause};
ghost use Rattle.folder_site.specs.Told.{IsNewSite, site_state, site_told, tells_both};
ghost use Rattle.kernel_laws.specs.Site.{AreLeft};

use crate::real::RealKernel;
use crash_site::fault::fault;
use crash_site::site::{ImageKind, MapRead, Site, SiteCall, SiteFault};
use crash_site::trouble::SiteTrouble;
use fault_count::FaultCount;
use file_identity::identity::OpenInput;
use files::KernelFiles;
use kernel_files::kernel::Kernel;
use site_record::recorder::{NoRecord, Recorder};
use std::alloc::Global;
use std::io;

mod allowed;
mod apart;
mod draft;
mod files;
mod held;
mod image;
mod left;
mod mapfile;
mod names;
mod nodes;
mod pieces;
mod settle;

/// Files and folders over a kernel, or a device as the image. It tells what its kernel and its recorder tell.
///
/// A call fails if two of the files that it knows are the same, whatever their names: the input noted for it, the
/// image, and the files that have a mapfile's or a draft's name. Nothing is written then. The image, the mapfile and
/// the draft are locked, and a call fails that meets one which another run has locked. It fails, too, if the image is
/// to be a device that is in use, or would be made among the device nodes, or if the image or a mapfile overlaps the
/// input or lies on it. The image is opened before anything is changed: an open after that fails.
#[derive(Drop)]
pub struct KernelSite<K: Kernel, R: Recorder> {
    files: KernelFiles<K, R>,
    alloc: Global,
    faults: FaultCount,
    trouble: Option<SiteTrouble>,
    /// The name of the mapfile whose read failed last, if there was memory for it.
    unread: Option<String>,
}

/// Real files and folders.
pub type FolderSite = KernelSite<RealKernel, NoRecord>;

/// The outcome of a call with its error counted as a fault, and kept.
fn counted<T>(
    outcome: io::Result<T>,
    call: SiteCall,
    faults: &mut FaultCount,
    trouble: &mut Option<SiteTrouble>,
) -> Result<T, SiteFault>
    ensures value { IfOk result (λ value. outcome ≡ Ok value) }
    ensures error { OnErr result (IsErr outcome) }
    ensures cause { HasCause faults.old faults.new result }
    ensures kept { IfErr outcome (λ error. trouble.new ≡ Some (record { call = call; error = error })) }
    ensures stands { OnOk outcome (trouble.new ≡ trouble.old) }
{
    match outcome {
        Ok(value) => Ok(value),
        Err(error) => {
            *trouble = Some(SiteTrouble { call, error });
            Err(fault(faults))
        }
    }
}

/// Keeps the name of a mapfile whose read failed, or that there was no memory for it.
fn note_unread<T>(outcome: &io::Result<T>, unread: &mut Option<String>, alloc: Global, name: &str)
    ensures { OnOk outcome.now (unread.new ≡ unread.old) }
{
    if outcome.is_err() {
        *unread = String::from_str(alloc, name).ok();
    }
}

impl KernelSite<RealKernel, NoRecord> {
    /// Over the files of the system. Nothing is open or begun.
    pub fn new(rt: HostRuntime) -> KernelSite<RealKernel, NoRecord>
        ensures open { (⟦<KernelSite<RealKernel, NoRecord> as Site>⟧.state result).is_open ≡ false }
        ensures draft { (⟦<KernelSite<RealKernel, NoRecord> as Site>⟧.state result).is_drafting ≡ false }
        ensures faults { (⟦<KernelSite<RealKernel, NoRecord> as Site>⟧.state result).faults ≡ 0 }
    {
        KernelSite::over(RealKernel::new(rt), NoRecord, rt)
    }
}

impl<K: Kernel, R: Recorder> KernelSite<K, R> {
    /// Over this kernel, of which no call was made yet. Nothing is open or begun.
    pub fn over(kernel: K, recorder: R, rt: HostRuntime) -> KernelSite<K, R>
        requires { IsNewSite (K.told kernel) (R.told recorder) }
        ensures { ⟦<KernelSite<K, R> as Site>⟧.state result ≡ site_told (K.told kernel) (R.told recorder) }
    {
        KernelSite {
            files: KernelFiles::new(kernel, recorder, rt),
            alloc: rt.alloc(),
            faults: FaultCount::new(),
            trouble: None,
            unread: None,
        }
    }

    /// Whatever a stop of the kernel leaves, at any of its calls so far, the record of the site's calls may leave.
    pub fn any_stop(&self)
        ensures { ∥ (IsTrue (tells_both (K.told self.now.files.kernel) (R.told self.now.files.recorder))
            → AreLeft (K.told self.now.files.kernel).start (R.told self.now.files.recorder).notes
            (K.told self.now.files.kernel).calls) ∥₁ }
    {
        self.files.any_stop();
    }

    /// The input that is open from here on, as it is noted here, is kept apart from what is written.
    pub fn keep_apart(&mut self, input: OpenInput)
        ensures { ⟦<KernelSite<K, R> as Site>⟧.state self.new ≡ ⟦<KernelSite<K, R> as Site>⟧.state self.old }
    {
        self.files.keep_apart(input);
    }

    /// From here on the image is read ahead, by as many bytes as there is room for, if a read asks for fewer. What
    /// another program writes there meanwhile may be seen late.
    pub fn read_ahead_in(&mut self, room: Vec<u8>)
        ensures { ⟦<KernelSite<K, R> as Site>⟧.state self.new ≡ ⟦<KernelSite<K, R> as Site>⟧.state self.old }
    {
        self.files.read_ahead_in(room);
    }

    /// The last call that failed, and its error, if one did.
    pub fn trouble(&self) -> Option<SiteTrouble>
        ensures { result ≡ self.now.trouble }
    {
        self.trouble
    }

    /// Whether this is the mapfile whose read failed last. Any may be, if memory was short at that read.
    pub fn is_unread(&self, name: &str) -> bool {
        match &self.unread {
            Some(unread) => unread.as_str() == name,
            None => true,
        }
    }
}

impl<K: Kernel, R: Recorder> Site for KernelSite<K, R> {
    ghost state = { λ s. site_state (K.told s.files.kernel) (R.told s.files.recorder) (is_some s.files.image)
        (is_some s.files.draft) s.faults };

    fn image_open(&mut self, name: &str, make: bool) -> Result<ImageKind, SiteFault> {
        let outcome = self.files.open(name, make);
        counted(
            outcome,
            SiteCall::ImageOpen,
            &mut self.faults,
            &mut self.trouble,
        )
    }

    fn image_read(&mut self, pos: u64, buf: &mut [u8]) -> Result<usize, SiteFault> {
        let outcome = self.files.read(pos, buf);
        counted(
            outcome,
            SiteCall::ImageRead,
            &mut self.faults,
            &mut self.trouble,
        )
    }

    fn image_write(&mut self, pos: u64, piece: &[u8]) -> Result<(), SiteFault> {
        let outcome = self.files.write(pos, piece);
        counted(
            outcome,
            SiteCall::ImageWrite,
            &mut self.faults,
            &mut self.trouble,
        )
    }

    fn image_sync(&mut self) -> Result<(), SiteFault> {
        let outcome = self.files.sync();
        counted(
            outcome,
            SiteCall::ImageSync,
            &mut self.faults,
            &mut self.trouble,
        )
    }

    fn map_read(&mut self, name: &str, pos: u64, buf: &mut [u8]) -> Result<MapRead, SiteFault> {
        let outcome = self.files.read_map(name, pos, buf);
        note_unread(&outcome, &mut self.unread, self.alloc, name);
        counted(
            outcome,
            SiteCall::MapRead,
            &mut self.faults,
            &mut self.trouble,
        )
    }

    fn draft_begin(&mut self, name: &str) -> Result<(), SiteFault> {
        let outcome = self.files.begin(name);
        counted(
            outcome,
            SiteCall::DraftBegin,
            &mut self.faults,
            &mut self.trouble,
        )
    }

    fn draft_append(&mut self, piece: &[u8]) -> Result<(), SiteFault> {
        let outcome = self.files.append(piece);
        counted(
            outcome,
            SiteCall::DraftAppend,
            &mut self.faults,
            &mut self.trouble,
        )
    }

    fn draft_sync(&mut self) -> Result<(), SiteFault> {
        let outcome = self.files.sync_draft();
        counted(
            outcome,
            SiteCall::DraftSync,
            &mut self.faults,
            &mut self.trouble,
        )
    }

    fn draft_publish(&mut self, name: &str) -> Result<(), SiteFault> {
        let outcome = self.files.publish(name);
        counted(
            outcome,
            SiteCall::DraftPublish,
            &mut self.faults,
            &mut self.trouble,
        )
    }

    fn map_settle(&mut self, name: &str) -> Result<(), SiteFault> {
        let outcome = self.files.settle(name);
        counted(
            outcome,
            SiteCall::MapSettle,
            &mut self.faults,
            &mut self.trouble,
        )
    }

    fn map_remove(&mut self, name: &str) -> Result<(), SiteFault> {
        let outcome = self.files.remove(name);
        counted(
            outcome,
            SiteCall::MapRemove,
            &mut self.faults,
            &mut self.trouble,
        )
    }
}
