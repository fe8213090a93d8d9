//! Shapes of expressions.

use bit_pattern::Pattern;
use mrs_arena::Op;
use serde_json::Value;

/// What an object says of itself as an expression. Its texts are those of the object.
#[derive(Clone, Copy)]
pub enum Shape<'v> {
    Truth(bool),
    Integer(i64),
    Bits(Pattern),
    /// A name, which is within the limits on names.
    Name(&'v str),
    /// Not `expr`.
    Not,
    /// `left` and `right`.
    Binary(Op),
    /// The function of that name, of `arguments`.
    Call(&'v str),
    /// Of `values`.
    Set,
    /// Of `values`.
    Join,
    /// Of `var` the one bit that this says, the only one of `arguments`.
    Index(&'v Value),
    /// Of `var` the bits from the `left` of this, the only one of `arguments`, to its `right`.
    Slice(&'v Value),
    /// None of these, whatever stands inside.
    Other,
}
