//! The laws.
ghost use Rattle.kernel_laws.specs.Asked.{SettleIsAsAsked, FailedSettleIsAsAsked, OpenIsAsAsked, SyncIsAsAsked, FailedSyncIsAsAsked};
ghost use Rattle.kernel_laws.specs.Laws.{EachCallRefines, EachFailureRefines, EachStopRefines, EachEndRefines, SavedTextIsLeft, SyncedImageIsLeft, RetriedSettleIsNotRefined};
ghost use Rattle.kernel_laws.specs.Loses.{ReadFilesMayBeFound, OldNameMayBeFound, UnsyncedWriteMayBeMissing, UnsyncedPieceMayBeAny, UnsyncedEndMayBeAny, LostPieceMayBeAny};
ghost use Rattle.kernel_laws.specs.Site.{AnyStopIsLeft};

/// Each call of a site that returned keeps the refinement.
pub fn each_call_refines()
    ensures { EachCallRefines }
{}

/// Each call of a site that failed keeps it.
pub fn each_failure_refines()
    ensures { EachFailureRefines }
{}

/// Each stop of the kernel is one of the site.
pub fn each_stop_refines()
    ensures { EachStopRefines }
{}

/// What is left after a run is what the site's model says.
pub fn each_end_refines()
    ensures { EachEndRefines }
{}

/// What any stop of the kernel leaves, the site's record may leave.
pub fn any_stop_is_left()
    ensures { AnyStopIsLeft }
{}

/// A text that was saved is all that the kernel leaves under its name.
pub fn saved_text_is_left()
    ensures { SavedTextIsLeft }
{}

/// An image that was synced is left as it reads, except for what was lost of it.
pub fn synced_image_is_left()
    ensures { SyncedImageIsLeft }
{}

/// A settle after a failed sync of its file may leave what the site's model denies.
pub fn retried_settle_is_not_refined()
    ensures { RetriedSettleIsNotRefined }
{}

/// The files as they read are one outcome.
pub fn read_files_may_be_found()
    ensures { ReadFilesMayBeFound }
{}

/// What a name had at first may be found until its folder is synced.
pub fn old_name_may_be_found()
    ensures { OldNameMayBeFound }
{}

/// A write that isn't synced may be missing.
pub fn unsynced_write_may_be_missing()
    ensures { UnsyncedWriteMayBeMissing }
{}

/// A piece that isn't synced may be found as any other.
pub fn unsynced_piece_may_be_any()
    ensures { UnsyncedPieceMayBeAny }
{}

/// What was added at a file's end and isn't synced may be found as any other piece.
pub fn unsynced_end_may_be_any()
    ensures { UnsyncedEndMayBeAny }
{}

/// What a failed sync lost may be found as any other piece, however often the file is synced.
pub fn lost_piece_may_be_any()
    ensures { LostPieceMayBeAny }
{}

/// The contract of a settle gives what the laws ask of it.
pub fn settle_is_as_asked()
    ensures { SettleIsAsAsked }
{}

/// The contract of a settle gives what the laws ask of one that failed.
pub fn failed_settle_is_as_asked()
    ensures { FailedSettleIsAsAsked }
{}

/// The contract of an open of the image gives what the laws ask of it.
pub fn open_is_as_asked()
    ensures { OpenIsAsAsked }
{}

/// The contract of a sync of the image gives what the laws ask of it.
pub fn sync_is_as_asked()
    ensures { SyncIsAsAsked }
{}

/// The contract of a sync of the image gives what the laws ask of one that failed.
pub fn failed_sync_is_as_asked()
    ensures { FailedSyncIsAsAsked }
{}
