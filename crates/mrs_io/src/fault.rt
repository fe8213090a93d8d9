//! Why a call on the outside was refused.
ghost use Rattle.std.specs.Prelude.{◌≡◌};

use std::alloc::AllocError;
use std::error::Error;
use std::fmt;

/// A read or a write that the object refused. Its count of faults rose in that call.
#[derive(Clone, Copy, Debug, PartialEq, Eq)]
pub struct Failed;

/// Why a document was not fetched.
#[derive(Clone, Copy, Debug, PartialEq, Eq)]
pub enum FetchFault {
    /// A fault of the shelf, or a shelf that tells its documents holds none of that name.
    Failed,
    /// The document is longer than the limit.
    TooLong,
    /// There is no memory for the document.
    NoMemory,
}

/// There is no memory for the room that was asked for.
#[derive(Clone, Copy, Debug, PartialEq, Eq)]
pub struct NoMemory;

impl fmt::Display for Failed {
    ghost use Rattle.std.specs.Prelude.{Some, codes};

    ghost output = { λ _. Some (codes "the read or the write failed") };

    fn fmt<W: fmt::Write>(&self, f: &mut fmt::Formatter<W>) -> fmt::Result {
        write!(f, "the read or the write failed")
    }
}

impl fmt::Display for FetchFault {
    ghost use Rattle.std.specs.Prelude.{Some};
    ghost use Rattle.mrs_io.specs.Texts.{fault_text};

    ghost output = { λ fault. Some (fault_text fault) };

    fn fmt<W: fmt::Write>(&self, f: &mut fmt::Formatter<W>) -> fmt::Result {
        match self {
            FetchFault::Failed => write!(f, "the document was not read"),
            FetchFault::TooLong => write!(f, "the document is too long"),
            FetchFault::NoMemory => write!(f, "out of memory"),
        }
    }
}

impl fmt::Display for NoMemory {
    ghost use Rattle.std.specs.Prelude.{Some, codes};

    ghost output = { λ _. Some (codes "out of memory") };

    fn fmt<W: fmt::Write>(&self, f: &mut fmt::Formatter<W>) -> fmt::Result {
        write!(f, "out of memory")
    }
}

impl Error for Failed {}

impl Error for FetchFault {}

impl Error for NoMemory {}

impl From<AllocError> for NoMemory {
    fn from(_: AllocError) -> Self {
        NoMemory
    }
}

impl From<AllocError> for FetchFault {
    ghost use Rattle.mrs_io.specs.declared.fault.FetchFault.TheVariants as variant;

    ghost from_gives = { λ _ fault. fault ≡ variant.NoMemory };

    fn from(_: AllocError) -> Self {
        FetchFault::NoMemory
    }
}
