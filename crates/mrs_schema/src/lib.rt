//! Reads the architecture's JSON documents, and names the first place where one leaves the profile.
//!
//! Each kind of document has a reader in a crate of its own; they are found here together.
#![tactic(auto)]

pub use features_reader::{Features, Param, ParamKind, read_features};
pub use instructions_reader::read_instructions;
pub use mrs_walk::{NoMemory, ReadFault, SchemaFault, Text, Why};
