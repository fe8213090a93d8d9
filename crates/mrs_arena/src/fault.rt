//! Why a builder takes no more.

use std::alloc::{AllocError, AllocFailed};
use thiserror::Error;

/// Why a builder takes no more.
#[derive(Clone, Copy, PartialEq, Eq, Debug, Error)]
pub enum BuildFault {
    /// One more would pass a limit.
    #[error("one more would pass a limit")]
    TooMany,
    /// No memory was left.
    #[error("out of memory")]
    NoMemory,
}

impl From<AllocError> for BuildFault {
    ghost use Rattle.std.specs.Prelude.{◌≡◌};
    ghost use Rattle.mrs_arena.specs.declared.fault.BuildFault.TheVariants.{NoMemory};

    ghost from_gives = { λ _ fault. fault ≡ NoMemory };

    fn from(_: AllocError) -> BuildFault {
        BuildFault::NoMemory
    }
}

impl<T: Drop> From<AllocFailed<T>> for BuildFault {
    ghost use Rattle.std.specs.Prelude.{◌≡◌};
    ghost use Rattle.mrs_arena.specs.declared.fault.BuildFault.TheVariants.{NoMemory};

    ghost from_gives = { λ _ fault. fault ≡ NoMemory };

    fn from(_: AllocFailed<T>) -> BuildFault {
        BuildFault::NoMemory
    }
}
