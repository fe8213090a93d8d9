//! Reads Instructions documents, and names the first place where one leaves the profile.
#![tactic(auto)]

mod aliases;
mod nodes;
mod reader;
mod sets;

pub use mrs_walk::{NoMemory, ReadFault, SchemaFault, Text, Why};
pub use reader::read_instructions;
