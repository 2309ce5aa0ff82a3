//! What can be wrong with a size.
use thiserror::Error;

/// Why a text is no number. Places are counted in bytes from 0.
#[derive(Clone, Copy, Debug, PartialEq, Eq, Error)]
pub enum SizeError {
    /// The text is empty.
    #[error("Empty")]
    Empty,
    /// A byte where a digit is wanted, or no digit at all.
    #[error("BadDigit")]
    BadDigit { at: usize },
    /// Something other than a multiplier after the number.
    #[error("BadSuffix")]
    BadSuffix { at: usize },
    /// The value is 2^63 or more.
    #[error("TooLarge")]
    TooLarge,
}
