//! The alias by which a word of a leaf is written.
#![tactic(auto)]

mod choice;
mod labels;
mod preference;

pub use choice::preferred;
pub use labels::{alias_label, find_alias};
