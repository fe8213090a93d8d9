//! Why a document is refused, and where.

ghost use Rattle.std.specs.Prelude.{◌≡◌};
ghost use Rattle.mrs_walk.specs.declared.fault.ReadFault.TheVariants.{NoMemory};

use crate::memory::NoMemory;
use crate::text::Text;
use bit_pattern::PatternFault;
use std::alloc::{AllocError, AllocFailed};
use thiserror::Error;

/// What is wrong at a place of a document. It prints as one word.
#[derive(Drop, PartialEq, Eq, Debug, Error)]
pub enum Why {
    /// A member of that name is needed, and the object lacks it.
    #[error("missing:{0}")]
    Missing(Text),
    /// The place does not list the object's `_type`.
    #[error("kind")]
    UnlistedKind,
    /// Another JSON type than the place wants, or a whole number outside its range.
    #[error("shape")]
    WrongShape,
    /// The text is no pattern.
    #[error("pattern")]
    BadPattern(PatternFault),
    /// A range that is empty or passes the word, or a pattern that is not as wide as its range.
    #[error("range")]
    BadRange,
    /// A name outside the limits on names, or a field's name that lines cannot print.
    #[error("name")]
    BadName,
    /// A second chosen set, or two fields of one name in an encodeset.
    #[error("doubled")]
    Doubled,
    /// One more name, node, leaf, alias, item of an encodeset or named item of a path than there may be.
    #[error("many")]
    TooMany,
    /// No set has the chosen name.
    #[error("no-set")]
    NoSet,
}

/// The first fault of a document: the JSON Pointer (RFC 6901) of its place, and the reason.
#[derive(Drop, PartialEq, Eq, Debug, Error)]
#[error("{why} {path}")]
pub struct SchemaFault {
    pub path: Text,
    pub why: Why,
}

/// Why a reader gave no value.
#[derive(Drop, PartialEq, Eq, Debug, Error)]
pub enum ReadFault {
    /// The document leaves the profile, first here.
    #[error("{0}")]
    Schema(SchemaFault),
    /// No memory was left.
    #[error("out of memory")]
    NoMemory,
}

impl From<NoMemory> for ReadFault {
    ghost from_gives = { λ _ e. e ≡ NoMemory };

    fn from(_fault: NoMemory) -> ReadFault {
        ReadFault::NoMemory
    }
}

impl From<AllocError> for ReadFault {
    ghost from_gives = { λ _ e. e ≡ NoMemory };

    fn from(_error: AllocError) -> ReadFault {
        ReadFault::NoMemory
    }
}

impl<T: Drop> From<AllocFailed<T>> for ReadFault {
    ghost from_gives = { λ _ e. e ≡ NoMemory };

    fn from(_error: AllocFailed<T>) -> ReadFault {
        ReadFault::NoMemory
    }
}
