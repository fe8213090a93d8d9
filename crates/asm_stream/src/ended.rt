//! How the assembly of a stream ends.

use list_words::LineFault;

/// How the assembly of a stream ended.
#[derive(Clone, Copy, PartialEq, Eq, Debug)]
pub enum Ended {
    /// The stream was read to its end, and the word of each line went out.
    Done,
    /// The line of that number, counted from 1, is refused. The words of the lines before it went out.
    Line { number: u64, fault: LineFault },
    /// The source failed. The words of the lines of a prefix of what was read went out.
    ReadFault,
    /// The sink failed. A prefix of the words went out.
    WriteFault,
    /// A byte follows the limit. The words of the lines that are ended within the limit went out.
    Limit,
    /// Memory ran out. A prefix of the words went out.
    NoMemory,
}
