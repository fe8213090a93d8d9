//! How a run came out.
use crate::watched::Counts;

/// The status of a run, what went out, and what the objects counted.
#[derive(Drop)]
pub(crate) struct Came {
    /// The number with which the program ends.
    pub(crate) status: u8,
    /// The status, as its `Debug` writes it.
    pub(crate) answer: String,
    pub(crate) out: Vec<u8>,
    pub(crate) err: Vec<u8>,
    pub(crate) shelf: Counts,
    pub(crate) input: Counts,
    pub(crate) out_counts: Counts,
    pub(crate) err_counts: Counts,
}
