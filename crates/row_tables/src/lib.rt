//! Tables of rows, read line by line: the documents that they declare, and rows with how each has to end.
//!
//! They are data of the gate. Of these functions safety alone is proved; what they read is shown by the rows that
//! `rows` plays.
#![tactic(auto)]

mod block;
mod book;
mod bytes;
mod object;
mod piece;
mod report;
mod row;
mod stop;
mod target;
mod wanted;

pub use block::Block;
pub use book::{Book, Document, Frame};
pub use object::Object;
pub use report::{push_number, push_text};
pub use row::Row;
pub use stop::Stop;
pub use target::Target;
pub use wanted::{Refutes, Wanted};
