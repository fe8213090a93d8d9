//! What a JSON object says of itself as an expression, before any part of it is read. No call takes memory.
#![tactic(auto)]

mod kind;
mod members;
mod shape;
mod shaping;

pub use shape::Shape;
pub use shaping::shape_of;
