//! Documents, and why one is refused.

use mrs_schema::SchemaFault;

/// What is read: the Instructions document, the Features document, the log, or the stream, which is no document.
#[derive(Clone, Copy, Debug, PartialEq, Eq)]
pub enum Which {
    Insns,
    Features,
    Log,
    Input,
}

/// Why a document is refused.
#[derive(Drop, Debug, PartialEq, Eq)]
pub enum DocFault {
    /// It has no JSON reading.
    Json,
    /// It leaves the profile; the fault is the first of the walk over it.
    Schema(SchemaFault),
    /// It is no log's text; `at` is the first byte of the first line that is not as demanded.
    Log { at: u64 },
}
