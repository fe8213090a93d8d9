//! The bits of words as masks: those that are fixed and those that are free, and the word that is made of given bits.
#![tactic(auto)]

mod fixed_bits;
mod given;
mod highest;
mod layout;
mod ranges;

pub use fixed_bits::FixedBits;
pub use given::Given;
pub use layout::WordLayout;
pub use ranges::{field_bits, is_too_wide};
