//! Causes of calls on the output, on a mapfile or on its folder.
ghost use Rattle.std.specs.Prelude.{◌≡◌, IfSome};

use crate::cause::{Cause, Doing, Fact, Hint, Named, Role, UsedBy};
use crate::reason::reason_text;
use crash_site::site::SiteCall;
use crash_site::trouble::SiteTrouble;
use file_identity::identity::Identity;
use kernel_devices::devices::{DeviceUse, User, find_use};
use real_files::outcome::is_in_use;
use std::fs;
use std::io::{self, ErrorKind};

/// The files that calls reach.
#[derive(Clone, Copy)]
pub struct SiteFiles<'a> {
    pub outfile: &'a str,
    /// What uses the outfile, if it was refused because it is a device in use.
    pub outfile_use: Option<&'a DeviceUse>,
    /// The mapfile that is saved, if there is one.
    pub mapfile: Option<&'a str>,
    /// The mapfile that a read met.
    pub read: Named<'a>,
}

/// Whether the form for real files refused a call itself, and not the system.
fn is_own(error: &io::Error, kind: ErrorKind) -> bool {
    error.raw_os_error().is_none() && error.kind() == kind
}

/// What uses the outfile, if it was refused because it is a device in use. The kernel is asked once more.
pub fn find_outfile_use(
    rt: &HostRuntime,
    trouble: Option<SiteTrouble>,
    outfile: &str,
) -> Option<DeviceUse>
    ensures { IfSome result (λ _. IfSome trouble (λ kept. kept.call ≡ SiteCall.ImageOpen)) }
{
    let trouble = trouble?;
    if trouble.call != SiteCall::ImageOpen || !is_in_use(&trouble.error) {
        return None;
    }
    let found = Identity::of(&fs::metadata(rt, outfile).ok()?);
    if !found.is_device() {
        return None;
    }
    find_use(rt, found.device()).ok()?
}

/// That a file is a device in use, and what uses it.
fn use_cause<'a>(file: Named<'a>, found: &'a DeviceUse) -> Cause<'a> {
    let by = match &found.user {
        User::Mount(folder) => UsedBy::Mount(folder.as_str()),
        User::Swap => UsedBy::Swap,
        User::Device(name) => UsedBy::Device(name.as_str()),
    };
    Cause::DeviceInUse {
        file,
        device: found.device.as_str(),
        by,
    }
}

fn is_full(error: &io::Error) -> bool {
    matches!(
        error.kind(),
        ErrorKind::StorageFull | ErrorKind::QuotaExceeded
    )
}

/// Why a call on the outfile failed.
fn image_cause<'a>(doing: Doing, error: &io::Error, files: SiteFiles<'a>) -> Cause<'a> {
    let file = Named {
        role: Role::Outfile,
        name: files.outfile,
    };
    if let Some(found) = files.outfile_use {
        return use_cause(file, found);
    }
    if is_own(error, ErrorKind::ResourceBusy) {
        return Cause::Hint(Hint::SameFile);
    }
    if is_own(error, ErrorKind::WouldBlock) {
        return Cause::File {
            file,
            fact: Fact::InUse,
        };
    }
    if is_own(error, ErrorKind::NotFound) {
        return Cause::File {
            file,
            fact: Fact::Unplugged,
        };
    }
    if is_full(error) {
        return Cause::Full {
            file,
            resumes: files.mapfile.is_some(),
        };
    }
    Cause::Refused {
        doing,
        file,
        reason: reason_text(error),
    }
}

/// Why a read of a mapfile failed.
fn read_cause<'a>(error: &io::Error, file: Named<'a>) -> Cause<'a> {
    if is_own(error, ErrorKind::ResourceBusy) {
        return Cause::File {
            file,
            fact: Fact::NotApart,
        };
    }
    if is_own(error, ErrorKind::InvalidInput) {
        return Cause::File {
            file,
            fact: Fact::NotRegular,
        };
    }
    Cause::Refused {
        doing: Doing::Read,
        file,
        reason: reason_text(error),
    }
}

/// Why a call of a save failed.
fn save_cause<'a>(error: &io::Error, name: &'a str) -> Cause<'a> {
    let file = Named {
        role: Role::Mapfile,
        name,
    };
    if is_own(error, ErrorKind::ResourceBusy) {
        return Cause::File {
            file,
            fact: Fact::DraftNotApart,
        };
    }
    if is_own(error, ErrorKind::WouldBlock) {
        return Cause::File {
            file,
            fact: Fact::InUse,
        };
    }
    if is_own(error, ErrorKind::InvalidInput) {
        return Cause::File {
            file,
            fact: Fact::NotRegular,
        };
    }
    if is_own(error, ErrorKind::AlreadyExists) {
        return Cause::File {
            file,
            fact: Fact::Replaced,
        };
    }
    if is_full(error) {
        return Cause::Full {
            file,
            resumes: true,
        };
    }
    Cause::Unsaved {
        name,
        reason: reason_text(error),
    }
}

/// Why a mapfile couldn't be removed.
fn remove_cause<'a>(error: &io::Error, name: &'a str) -> Cause<'a> {
    let file = Named {
        role: Role::Mapfile,
        name,
    };
    if is_own(error, ErrorKind::WouldBlock) {
        return Cause::File {
            file,
            fact: Fact::InUse,
        };
    }
    Cause::Refused {
        doing: Doing::Remove,
        file,
        reason: reason_text(error),
    }
}

/// Why a call failed, by the error that it met.
fn site_cause<'a>(trouble: SiteTrouble, files: SiteFiles<'a>) -> Cause<'a> {
    let error = &trouble.error;
    let mapfile = files.mapfile.unwrap_or("");
    match trouble.call {
        SiteCall::ImageOpen => image_cause(Doing::Open, error, files),
        SiteCall::ImageRead => image_cause(Doing::Read, error, files),
        SiteCall::ImageWrite => image_cause(Doing::Write, error, files),
        SiteCall::ImageSync => image_cause(Doing::Sync, error, files),
        SiteCall::MapRead => read_cause(error, files.read),
        SiteCall::MapRemove => remove_cause(error, mapfile),
        SiteCall::DraftBegin
        | SiteCall::DraftAppend
        | SiteCall::DraftSync
        | SiteCall::DraftPublish
        | SiteCall::MapSettle => save_cause(error, mapfile),
    }
}

/// Why this call failed, if it is the one whose error was kept.
pub fn fault_cause<'a>(
    trouble: Option<SiteTrouble>,
    call: SiteCall,
    files: SiteFiles<'a>,
) -> Option<Cause<'a>>
    ensures { IfSome result (λ _. IfSome trouble (λ kept. kept.call ≡ call)) }
{
    let trouble = trouble?;
    if trouble.call != call {
        return None;
    }
    Some(site_cause(trouble, files))
}
