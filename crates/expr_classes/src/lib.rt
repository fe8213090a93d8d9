//! Classes of expressions of an arena that state one fact: those that are equal part by part and hold no Other.
#![tactic(auto)]

mod classes;
mod key;
mod memory;
mod numbering;
mod table;

pub use classes::Classes;
pub use memory::NoMemory;
pub use numbering::number;
