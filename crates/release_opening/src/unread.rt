//! Why bytes are not read.

use crate::document::DocFault;

/// Why bytes are not read.
#[derive(Drop, Debug)]
pub(crate) enum Unread {
    /// The document is refused.
    Refused(DocFault),
    /// Memory ran out.
    NoMemory,
}
