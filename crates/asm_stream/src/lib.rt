//! The words that the lines of a stream are assembled to: the stream is read in large pieces, of which at most one line is
//! kept, and the words are written in large pieces.
#![tactic(auto)]

mod assembly;
mod ended;
mod piece;
mod stop;
mod stream;

pub use ended::Ended;
pub use stream::assemble_stream;
