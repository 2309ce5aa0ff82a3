//! Sets of statuses, as options list them by their characters.
ghost use Rattle.std.specs.Prelude.{◌≡◌, is_some};
ghost use Rattle.std.specs.List.{list_all};
ghost use Rattle.block_list.specs.Status.{status_of_symbol};
ghost use Rattle.block_list.specs.Types.{is_types, has_symbol, types_of, has_type};

use crate::status::Status;

/// Some of the five statuses.
#[derive(Clone, Copy, Debug, PartialEq, Eq)]
pub struct TypeSet {
    non_tried: bool,
    non_trimmed: bool,
    non_scraped: bool,
    bad_sector: bool,
    finished: bool,
}

impl TypeSet {
    /// The statuses whose characters a text has. None if the text is empty or has a character that is no status's.
    pub fn read(text: &str) -> Option<TypeSet>
        ensures { result ≡ types_of text.now }
    {
        let text = text.as_bytes();
        if !is_types(text) {
            return None;
        }
        Some(TypeSet {
            non_tried: has_symbol(text, Status::NonTried),
            non_trimmed: has_symbol(text, Status::NonTrimmed),
            non_scraped: has_symbol(text, Status::NonScraped),
            bad_sector: has_symbol(text, Status::BadSector),
            finished: has_symbol(text, Status::Finished),
        })
    }

    /// Whether a status is in the set.
    pub fn has(&self, status: Status) -> bool
        ensures { result ≡ has_type self.now status }
    {
        match status {
            Status::NonTried => self.non_tried,
            Status::NonTrimmed => self.non_trimmed,
            Status::NonScraped => self.non_scraped,
            Status::BadSector => self.bad_sector,
            Status::Finished => self.finished,
        }
    }
}

/// Whether a text isn't empty, and each of its characters is a status's.
fn is_types(text: &[u8]) -> bool
    ensures { result ≡ is_types text.now }
{
    !text.is_empty() && all_are_symbols(text)
}

/// Whether each character of a text is a status's.
fn all_are_symbols(text: &[u8]) -> bool
    ensures { result ≡ list_all (λ c. is_some (status_of_symbol c)) text.now }
{
    text.iter().all(|c| Status::of_symbol(*c).is_some())
}

/// Whether a text has the character of a status.
fn has_symbol(text: &[u8], status: Status) -> bool
    ensures { result ≡ has_symbol text.now status }
{
    let symbol = status.symbol();
    text.iter().any(|c| symbol == *c)
}
