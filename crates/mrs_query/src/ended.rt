//! How a command ends.

use crate::Status;
use std::alloc::Global;

/// How a command ends, and a text: the reason where it is that a line is refused, the log where it is that no configuration
/// fits; in all other cases that is empty.
#[derive(Drop)]
pub(crate) struct Ended {
    pub status: Status,
    pub text: Vec<u8>,
}

impl Ended {
    ghost use Rattle.mrs_query.specs.Plainly.{IsPlainly};

    /// A status without a text.
    pub(crate) fn plainly(alloc: Global, status: Status) -> Ended
        ensures { IsPlainly status result }
    {
        Ended {
            status,
            text: Vec::new(alloc),
        }
    }
}
