//! Expressions as they are read back.

use crate::expr_id::ExprId;
use crate::func::Func;
use crate::op::Op;
use bit_pattern::Pattern;
use mrs_names::NameId;

/// An expression of an arena, with its lists as slices of the arena. The number of each part is smaller than its own.
#[derive(Clone, Copy)]
pub enum ExprRef<'a> {
    Truth(bool),
    Integer(i64),
    Bits(Pattern),
    /// A field or a parameter.
    Name(NameId),
    Not(ExprId),
    /// The left side and the right one.
    Binary(Op, ExprId, ExprId),
    Call(Func, &'a [ExprId]),
    Set(&'a [ExprId]),
    /// Bits joined, those of the first part being the highest.
    Join(&'a [ExprId]),
    /// Of some bits those from a high one down to a low one.
    Slice(ExprId, ExprId, ExprId),
    /// None of these. Two of them need not mean the same.
    Other,
}
