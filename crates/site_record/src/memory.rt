//! A recorder in memory, which tells its notes.
ghost use Rattle.std.specs.Prelude.{◌≡◌, ◌<◌, ◌++◌, ◌∷◌, [], length, vec_len, vec_capacity, IsSome, IfOk};
ghost use Rattle.std.proofs.Props.{props};
ghost use Rattle.site_record.specs.Record.{call_of};
ghost use Rattle.site_record.specs.Memory.{call_in, note_in, notes_in, noted_of};

use crate::recorder::{Asked, Ended, Recorder};
use std::alloc::{AllocError, Global};

/// A call, with a copy of what it was handed.
#[derive(Drop)]
pub(crate) enum Copied {
    ImageOpen(Vec<u8>, bool),
    ImageRead(u64, usize),
    ImageWrite(u64, Vec<u8>),
    ImageSync,
    MapRead(Vec<u8>, u64, usize),
    DraftBegin(Vec<u8>),
    DraftAppend(Vec<u8>),
    DraftSync,
    DraftPublish(Vec<u8>),
    MapSettle(Vec<u8>),
    MapRemove(Vec<u8>),
}

/// A call that ended.
#[derive(Drop)]
pub(crate) struct Listed {
    call: Copied,
    ended: Ended,
    made: usize,
}

/// The notes, and a copy of the call that has begun. There is room for its note, so that `end` needs no memory.
#[derive(Drop)]
pub struct MemoryRecorder {
    alloc: Global,
    listed: Vec<Listed>,
    begun: Option<Copied>,
    ghost room: { IsSome begun → vec_len listed < vec_capacity listed } by { Prim.hlevel props },
}

impl MemoryRecorder {
    ghost use Rattle.site_record.specs.Memory.{nothing_noted};
    ghost use Rattle.site_record.specs.MemoryState.{told_by};

    /// No notes.
    pub fn new(alloc: Global) -> MemoryRecorder
        ensures { told_by result ≡ nothing_noted }
    {
        MemoryRecorder {
            alloc,
            listed: Vec::new(alloc),
            begun: None,
        }
    }

    /// How many calls ended.
    pub fn noted(&self) -> usize
        ensures { result ≡ length (told_by self.now).notes }
    {
        self.listed.len()
    }
}

fn copy_name(alloc: Global, name: &str) -> Result<Vec<u8>, AllocError>
    ensures { IfOk result (λ bytes. bytes.items ≡ name.now) }
{
    Vec::from_slice(alloc, name.as_bytes())
}

/// Copies a call and what it is handed.
fn copy(alloc: Global, call: Asked<'_>) -> Result<Copied, AllocError>
    ensures { IfOk result (λ copied. call_in copied ≡ call_of call.entry) }
{
    match call {
        Asked::ImageOpen(name, make) => Ok(Copied::ImageOpen(copy_name(alloc, name)?, make)),
        Asked::ImageRead(pos, asked) => Ok(Copied::ImageRead(pos, asked)),
        Asked::ImageWrite(pos, piece) => {
            Ok(Copied::ImageWrite(pos, Vec::from_slice(alloc, piece)?))
        }
        Asked::ImageSync => Ok(Copied::ImageSync),
        Asked::MapRead(name, pos, asked) => {
            Ok(Copied::MapRead(copy_name(alloc, name)?, pos, asked))
        }
        Asked::DraftBegin(name) => Ok(Copied::DraftBegin(copy_name(alloc, name)?)),
        Asked::DraftAppend(piece) => Ok(Copied::DraftAppend(Vec::from_slice(alloc, piece)?)),
        Asked::DraftSync => Ok(Copied::DraftSync),
        Asked::DraftPublish(name) => Ok(Copied::DraftPublish(copy_name(alloc, name)?)),
        Asked::MapSettle(name) => Ok(Copied::MapSettle(copy_name(alloc, name)?)),
        Asked::MapRemove(name) => Ok(Copied::MapRemove(copy_name(alloc, name)?)),
    }
}

/// Lists a call that ended, for which there is room.
fn list(listed: &mut Vec<Listed>, item: Listed)
    requires { vec_len listed.old < vec_capacity listed.old }
    ensures { notes_in listed.new.items ≡ notes_in listed.old.items ++ note_in item ∷ [] }
{
    let _ = listed.push(item);
}

impl Recorder for MemoryRecorder {
    ghost told = { λ r. noted_of r.listed.items r.begun };

    fn begin(&mut self, call: Asked<'_>) -> Result<(), AllocError> {
        let copied = copy(self.alloc, call)?;
        self.listed.reserve(1)?;
        self.begun = Some(copied);
        Ok(())
    }

    fn end(&mut self, ended: Ended, made: usize) {
        if let Some(call) = self.begun.take() {
            list(&mut self.listed, Listed { call, ended, made });
        }
    }
}
