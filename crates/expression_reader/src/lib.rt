//! Reads expressions of documents, wherever one may stand.
#![tactic(auto)]

mod expressions;
mod functions;

pub use expressions::read_expression;
pub use mrs_walk::{NoMemory, ReadFault, SchemaFault, Text, Why};
