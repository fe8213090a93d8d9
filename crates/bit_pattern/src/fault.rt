//! Why a text is no pattern.

use thiserror::Error;

/// Why a text is no pattern. Places count the bytes of the text from 0.
#[derive(Clone, Copy, PartialEq, Eq, Debug, Error)]
pub enum PatternFault {
    /// The text has no digit.
    #[error("no digit")]
    Empty,
    /// The byte at `at` is neither a digit nor a space, nor a quote at an end of the text.
    #[error("byte {at} is neither a digit nor a space")]
    BadChar { at: u64 },
    /// The text has more than 128 digits.
    #[error("more than 128 digits")]
    TooWide,
    /// A quote at `at`, the first or the last byte, has no partner at the other end.
    #[error("the quote at byte {at} has no partner")]
    Unquoted { at: u64 },
}
