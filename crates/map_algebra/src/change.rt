//! Maps with types changed.
ghost use Rattle.std.specs.Prelude.{◌≡◌, IfOk, if◌then◌else◌, nat_eq, position};
ghost use Rattle.block_list.specs.Status.{symbol};
ghost use Rattle.block_list.specs.Types.{is_types};
ghost use Rattle.rescue_domain.specs.Parts.{covers};
ghost use Rattle.map_algebra.specs.Change.{change_of, change_by, becomes, new_type, changed_by, changed_map, inverting};

use block_list::status::Status;
use block_list::tiles::{NoMemory, Tiles};
use block_list::types::TypeSet;
use map_counts::pieces::{DomainPiece, Nearby, piece_at, put};
use plain_blocks::plain_tiles::PlainTiles;
use rescue_domain::domain::Domain;
use std::alloc::Global;

/// What becomes of each status.
#[derive(Clone, Copy, Debug, PartialEq, Eq)]
pub struct TypeChange {
    pub non_tried: Status,
    pub non_trimmed: Status,
    pub non_scraped: Status,
    pub bad_sector: Status,
    pub finished: Status,
}

impl TypeChange {
    /// The change that a text asks for: types, a comma, and what they become. None if it is anything else.
    pub fn read(text: &str) -> Option<TypeChange>
        ensures { result ≡ change_of text.now }
    {
        let Some((old, new)) = text.split_once(',') else {
            return None;
        };
        if are_types(old) && are_types(new) {
            Some(change_by(old.as_bytes(), new.as_bytes()))
        } else {
            None
        }
    }

    /// Finished becomes a bad sector, and all else finished.
    pub fn inverting() -> TypeChange
        ensures { result ≡ inverting }
    {
        TypeChange {
            non_tried: Status::Finished,
            non_trimmed: Status::Finished,
            non_scraped: Status::Finished,
            bad_sector: Status::Finished,
            finished: Status::BadSector,
        }
    }

    /// What becomes of a status.
    fn of(&self, status: Status) -> Status
        ensures { result ≡ changed_by self.now status }
    {
        match status {
            Status::NonTried => self.non_tried,
            Status::NonTrimmed => self.non_trimmed,
            Status::NonScraped => self.non_scraped,
            Status::BadSector => self.bad_sector,
            Status::Finished => self.finished,
        }
    }
}

/// Whether a text is types.
fn are_types(text: &str) -> bool
    ensures { result ≡ is_types text.now }
{
    TypeSet::read(text).is_some()
}

/// The change of old types to new ones.
fn change_by(old: &[u8], new: &[u8]) -> TypeChange
    ensures { result ≡ change_by old.now new.now }
{
    TypeChange {
        non_tried: becomes(old, new, Status::NonTried),
        non_trimmed: becomes(old, new, Status::NonTrimmed),
        non_scraped: becomes(old, new, Status::NonScraped),
        bad_sector: becomes(old, new, Status::BadSector),
        finished: becomes(old, new, Status::Finished),
    }
}

/// What becomes of a status when old types become new ones.
fn becomes(old: &[u8], new: &[u8], status: Status) -> Status
    ensures { result ≡ becomes old.now new.now status }
{
    match place_of(old, status) {
        Some(place) => new_type(new, place).unwrap_or(status),
        None => status,
    }
}

/// The first place at which a text has the character of a status.
fn place_of(text: &[u8], status: Status) -> Option<usize>
    ensures { result ≡ position (nat_eq (symbol status)) text.now }
{
    let symbol = status.symbol();
    text.iter().position(|c| symbol == *c)
}

/// The type at a place of a text, or the last one if there are fewer.
fn new_type(new: &[u8], place: usize) -> Option<Status>
    ensures { result ≡ new_type new.now place }
{
    let last = new.len().saturating_sub(1);
    match new.get(place.min(last)) {
        Some(symbol) => Status::of_symbol(*symbol),
        None => None,
    }
}

/// What becomes of the status of a piece.
fn changed(change: &TypeChange, piece: DomainPiece) -> Status
    ensures { result ≡ if piece.inside then changed_by change.now piece.status else piece.status }
{
    if piece.inside {
        change.of(piece.status)
    } else {
        piece.status
    }
}

/// A map in which the types of a domain's positions are changed. It ends where the map does.
pub fn change_types<T: Tiles>(
    alloc: Global,
    tiles: &T,
    domain: &Domain,
    change: &TypeChange,
) -> Result<PlainTiles, NoMemory>
    ensures { IfOk result (λ t. t.statuses ≡ changed_map (covers domain.now) change.now (T.statuses tiles.now)) }
{
    let end = tiles.end();
    let mut out = PlainTiles::new(alloc);
    let mut near = Nearby::start();
    let mut at = 0;
    while at < end {
        let piece = piece_at(tiles, domain, &mut near, at, end);
        put(&mut out, piece.to, changed(change, piece))?;
        at = piece.to;
    }
    Ok(out)
}
