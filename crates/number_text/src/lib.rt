//! The numbers that texts say, read from bytes. No call takes memory.
#![tactic(auto)]

mod digits;
mod number;

pub use number::number_below;
