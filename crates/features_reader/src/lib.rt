//! Reads Features documents, and names the first place where one leaves the profile.
#![tactic(auto)]

mod constraints;
mod feature_reader;
mod features;
mod params;

pub use feature_reader::read_features;
pub use features::{Features, Param, ParamKind};
pub use mrs_walk::{NoMemory, ReadFault, SchemaFault, Text, Why};
