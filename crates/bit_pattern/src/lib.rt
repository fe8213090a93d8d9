//! Patterns of bits, ranges of bits, and slices of numbers. No call takes memory.
#![tactic(auto)]

mod fault;
mod number;
mod parts;
mod pattern;
mod prefix;
mod range;
mod reading;
mod slicing;

pub use fault::PatternFault;
pub use pattern::Pattern;
pub use range::Range;
pub use slicing::slice;
