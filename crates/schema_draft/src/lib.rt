//! What readers of documents put on the way: names, nodes with their items, and expressions.
//!
//! A reader of a kind of document stands in a crate of its own above this one.
#![tactic(auto)]

mod bits;
mod draft;
mod items;
mod names;

pub use draft::Draft;
pub use items::read_encodeset;
pub use mrs_walk::{NoMemory, ReadFault, SchemaFault, Text, Why};
