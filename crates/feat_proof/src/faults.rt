//! Why a call gives up.

ghost use Rattle.std.specs.Prelude.{◌≡◌};
ghost use Rattle.feat_proof.specs.declared.faults.LogFault.TheVariants as fault;

use std::alloc::{AllocError, AllocFailed};
use thiserror::Error;

/// Memory ran out.
#[derive(Clone, Copy, Debug, PartialEq, Eq, Error)]
#[error("out of memory")]
pub struct NoMemory;

impl From<AllocError> for NoMemory {
    fn from(_refused: AllocError) -> NoMemory {
        NoMemory
    }
}

impl<T: Drop> From<AllocFailed<T>> for NoMemory {
    fn from(_refused: AllocFailed<T>) -> NoMemory {
        NoMemory
    }
}

/// Why a text is not read as a log.
#[derive(Clone, Copy, Debug, PartialEq, Eq, Error)]
pub enum LogFault {
    /// The text is not that of a log: its first line that is not as demanded begins at this byte. It is
    /// the text's length where a line is missing, or the first byte after the last line.
    #[error("the line at byte {at} is not as demanded")]
    Syntax { at: u64 },
    /// Memory ran out.
    #[error("out of memory")]
    NoMemory,
}

impl From<NoMemory> for LogFault {
    ghost from_gives = { λ _ e. e ≡ fault.NoMemory };

    fn from(_refused: NoMemory) -> LogFault {
        LogFault::NoMemory
    }
}
