//! The sizes of `-K`: how far copying skips after a failed or slow read, at first and at most.
ghost use Rattle.std.specs.Prelude.{◌≡◌, [], ◌∷◌, ◌^◌, ◌<◌, ◌≤◌};
ghost use Rattle.size_suffixes.specs.Sectors.{IsSector};
ghost use Rattle.ddrescue_words.specs.Options.{comma_parts, size_if_given, skips_given, skips_in_parts, skips_of, whole_sectors};

use size_suffixes::size::read_size;

/// How far copying skips at first in bytes, if no option says it.
pub(crate) const DEFAULT_SKIP: u64 = 65_536;

/// How far copying skips at most in bytes, if no option says it.
pub(crate) const DEFAULT_SKIP_MAX: u64 = 1 << 30;

/// The least skip in whole sectors that is too large.
const SKIP_LIMIT: u64 = 1 << 63;

/// A size rounded up to whole sectors.
pub(crate) fn in_sectors(size: u64, sector: u64) -> u64
    requires sector { IsSector sector }
    requires small { size < 2 ^ 63 }
    ensures { result ≡ whole_sectors sector size }
{
    (size + (sector - 1)) / sector * sector
}

/// A size that may be left out, if it isn't a bad one.
fn size_if_given(sector: u64, text: &str) -> Option<Option<u64>>
    requires { IsSector sector }
    ensures { result ≡ size_if_given sector text.now }
{
    if text.is_empty() {
        Some(None)
    } else {
        Some(Some(read_size(text, sector).ok()?))
    }
}

/// The first skip and the largest, by two sizes of which each may be left out.
fn skips_given(first: Option<u64>, most: Option<u64>) -> Option<(u64, u64)>
    ensures { result ≡ skips_given first most }
{
    match (first, most) {
        (None, None) => Some((DEFAULT_SKIP, DEFAULT_SKIP_MAX)),
        (Some(first), None) => Some((first, first.max(DEFAULT_SKIP_MAX))),
        (None, Some(most)) => Some((most.min(DEFAULT_SKIP), most)),
        (Some(first), Some(most)) if first <= most => Some((first, most)),
        (Some(_), Some(_)) => None,
    }
}

/// The first skip and the largest, by the texts of two sizes. A text is empty if its size is left out.
fn skips_of_pair(sector: u64, first: &str, most: &str) -> Option<(u64, u64)>
    requires { IsSector sector }
    ensures { result ≡ skips_in_parts sector (first.now ∷ most.now ∷ []) }
{
    skips_given(size_if_given(sector, first)?, size_if_given(sector, most)?)
}

/// The first skip and the largest that a text with one comma at most gives.
fn skips_in_text(sector: u64, text: &str) -> Option<(u64, u64)>
    requires { IsSector sector }
    ensures { result ≡ skips_in_parts sector (comma_parts text.now) }
{
    let Some((first, most)) = text.split_once(',') else {
        return skips_of_pair(sector, text, "");
    };
    if most.contains(',') {
        None
    } else {
        skips_of_pair(sector, first, most)
    }
}

/// The first skip and the largest that a text gives, in bytes, if it does: `initial`, `initial,largest`, `,largest` or
/// `initial,`.
pub(crate) fn read_skips(sector: u64, text: &str) -> Option<(u64, u64)>
    requires { IsSector sector }
    ensures { result ≡ skips_of sector text.now }
{
    if text.is_empty() {
        return None;
    }
    let (first, most) = skips_in_text(sector, text)?;
    if in_sectors(most, sector) < SKIP_LIMIT {
        Some((first, most))
    } else {
        None
    }
}
