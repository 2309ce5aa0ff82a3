//! Reads a mapfile.
ghost use Rattle.mapfile_text.specs.MapText.{text_limit};
ghost use Rattle.std.specs.Prelude.{◌≡◌, ◌⊎◌, ◌+◌, ◌<◌, ◌≤◌, ◌++◌, [], IsTrue, length, vec_len, None, OnOk, IfOk, IfErr, IfSome, MatchOption};
ghost use Rattle.mapfile_text.specs.MapText.{IsMapText};
ghost use Rattle.mapfile_text.specs.declared.read.MapError.{MapError as Error};
ghost use Rattle.mapfile_text.specs.declared.read.MapError.TheVariants.{TooLong as LongText};
ghost use Rattle.crash_site.specs.SiteState.{files_in};
ghost use Rattle.crash_site.specs.SiteChanges.{Stays};
ghost use Rattle.mapfile_resume.specs.declared.load.ResumeFault.TheVariants.{Map as Refused, NoMemory as OutOfMemory};
ghost use Rattle.mapfile_resume.specs.Resuming.{LoadEnded, LoadAnswers, CountsFaults, IsOfFile, ReadsAs, IsWithinLimits};
ghost use Rattle.mapfile_resume.specs.Text.{IsTextOf, TextStop, NoMapIn};

use crash_site::site::{MapRead, Site, SiteCall};
use mapfile_reader::read::{ReadMap, TEXT_LIMIT, read_map};
use mapfile_text::read::{MapError, Mode};
use std::alloc::Global;

/// How many bytes of a mapfile are asked for at a time.
const PIECE: usize = 4096;

/// Why a mapfile can't be resumed from.
#[derive(Clone, Copy, Debug, PartialEq, Eq)]
pub enum ResumeFault {
    /// This call failed.
    Site(SiteCall),
    /// The text is no map, or is too long.
    Map(MapError),
    /// There wasn't enough memory.
    NoMemory,
}

/// Puts a piece after a text, unless that makes it too long.
fn add_piece(text: &mut Vec<u8>, piece: &[u8]) -> Result<(), ResumeFault>
    requires { vec_len text.old ≤ text_limit }
    ensures added { OnOk result (text.new.items ≡ text.old.items ++ piece.now) }
    ensures within { OnOk result (vec_len text.new ≤ text_limit) }
    ensures refused { IfErr result (λ e. (e ≡ OutOfMemory)
        ⊎ ((e ≡ Refused LongText) × (text_limit < vec_len text.old + length piece.now))) }
{
    if piece.len() > TEXT_LIMIT - text.len() {
        return Err(ResumeFault::Map(MapError::TooLong));
    }
    text.extend_from_slice(piece)
        .map_err(|_| ResumeFault::NoMemory)
}

/// Reads the text of a mapfile to its end, piece by piece. None if there is no such file.
fn read_text<D: Site>(
    alloc: Global,
    site: &mut D,
    name: &str,
) -> Result<Option<Vec<u8>>, ResumeFault>
    ensures found { IfOk result (λ text. IsTrue (D.state site.old).tells
        → MatchOption text (files_in (D.state site.old) name.now ≡ None)
        (λ t. IsTextOf (files_in (D.state site.old) name.now) t.items)) }
    ensures short { IfOk result (λ text. IfSome text (λ t. vec_len t ≤ text_limit)) }
    ensures loaded { OnOk result (IsTrue (D.state site.old).tells
        → LoadEnded [] name.now (files_in (D.state site.old) name.now)
        (D.state site.old).calls (D.state site.new).calls) }
    ensures long { IfErr result (λ e. (error : Error) → e ≡ Refused error → error ≡ LongText) }
    ensures stop { IfErr result (λ e. IsTrue (D.state site.old).tells
        → TextStop name.now (files_in (D.state site.old) name.now) e
        (D.state site.old).calls (D.state site.new).calls) }
    ensures counts { CountsFaults result (D.state site.old).faults (D.state site.new).faults }
    ensures stays { Stays (D.state site.old) (D.state site.new) }
{
    let mut text = Vec::new(alloc);
    let mut buf = [0u8; PIECE];
    'pieces: loop {
        let Ok(read) = site.map_read(name, text.len() as u64, &mut buf) else {
            return Err(ResumeFault::Site(SiteCall::MapRead));
        };
        match read {
            MapRead::Absent => return Ok(None),
            MapRead::Bytes(0) => return Ok(Some(text)),
            MapRead::Bytes(size) => add_piece(&mut text, &buf[..size])?,
        }
    }
}

/// The map that a text is.
fn map_in(alloc: Global, text: &[u8], mode: Mode) -> Result<ReadMap, ResumeFault>
    requires { length text.now ≤ text_limit }
    ensures map { IfOk result (λ map. IsMapText text.now mode map.state map.first map.listed map.tiles.statuses) }
    ensures limits { IfOk result IsWithinLimits }
    ensures none { IfErr result (NoMapIn text.now mode) }
{
    match read_map(alloc, text, mode) {
        Ok(map) => Ok(map),
        Err(MapError::NoMemory) => Err(ResumeFault::NoMemory),
        Err(error) => Err(ResumeFault::Map(error)),
    }
}

/// Reads a mapfile, by reads that ask for 4,096 bytes each. None if there is no such file; a text that says nothing is
/// refused for lack of a status line.
pub fn load_map<D: Site>(
    alloc: Global,
    site: &mut D,
    name: &str,
    mode: Mode,
) -> Result<Option<ReadMap>, ResumeFault>
    ensures told { IsTrue (D.state site.old).tells
        → LoadAnswers name.now mode (files_in (D.state site.old) name.now) result
        (D.state site.old).calls (D.state site.new).calls }
    ensures read { IsOfFile (files_in (D.state site.old) name.now) (D.state site.old).tells (ReadsAs mode result) }
    ensures counts { CountsFaults result (D.state site.old).faults (D.state site.new).faults }
    ensures limits { IfOk result (λ found. IfSome found IsWithinLimits) }
    ensures stays { Stays (D.state site.old) (D.state site.new) }
{
    let Some(mut text) = read_text(alloc, site, name)? else {
        return Ok(None);
    };
    // As it grew, it got room for up to as much again.
    text.shrink_to_fit();
    Ok(Some(map_in(alloc, &text, mode)?))
}
