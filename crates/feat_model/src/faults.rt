//! Why a call gives up.

ghost use Rattle.std.specs.Prelude.{◌≡◌};
ghost use Rattle.feat_model.specs.declared.faults.ModelFault.TheVariants as fault;

use feat_proof::NoMemory;
use std::alloc::{AllocError, AllocFailed};
use thiserror::Error;

/// Why pins are not taken.
#[derive(Clone, Copy, Debug, PartialEq, Eq, Error)]
pub enum ModelFault {
    /// The pin, counted from 0, that is the first to name no boolean parameter.
    #[error("pin {pin} names no boolean parameter")]
    UnknownFeature { pin: u32 },
    /// Memory ran out.
    #[error("out of memory")]
    NoMemory,
}

impl From<NoMemory> for ModelFault {
    ghost from_gives = { λ _ e. e ≡ fault.NoMemory };

    fn from(_refused: NoMemory) -> ModelFault {
        ModelFault::NoMemory
    }
}

impl From<AllocError> for ModelFault {
    ghost from_gives = { λ _ e. e ≡ fault.NoMemory };

    fn from(_refused: AllocError) -> ModelFault {
        ModelFault::NoMemory
    }
}

impl<T: Drop> From<AllocFailed<T>> for ModelFault {
    ghost from_gives = { λ _ e. e ≡ fault.NoMemory };

    fn from(_refused: AllocFailed<T>) -> ModelFault {
        ModelFault::NoMemory
    }
}

impl From<ast_eval::NoMemory> for ModelFault {
    ghost from_gives = { λ _ e. e ≡ fault.NoMemory };

    fn from(_refused: ast_eval::NoMemory) -> ModelFault {
        ModelFault::NoMemory
    }
}
