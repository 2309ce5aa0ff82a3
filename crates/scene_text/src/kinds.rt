//! What a stop may leave, by its names.
use crate::refusal::Refusal;
use memory_site::memory::stop::Left;

/// Each kind, in the order in which stops are played.
pub const KINDS: [(&str, Left); 3] = [
    ("oldest", Left::Oldest),
    ("newest", Left::Newest),
    ("garbage", Left::Garbage),
];

/// Reads the name of a kind.
pub(crate) fn read_kind(word: &str) -> Result<Left, Refusal> {
    for (name, kind) in KINDS {
        if word == name {
            return Ok(kind);
        }
    }
    Err(Refusal::NotUnderstood)
}
