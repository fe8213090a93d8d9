//! Expressions as they are put.

use crate::expr_id::ExprId;
use crate::func::Func;
use crate::op::Op;
use bit_pattern::Pattern;
use mrs_names::NameId;

/// A list of expressions that was put: `len` of all parts of lists, from number `from` on.
#[derive(Clone, Copy, PartialEq, Eq, Debug)]
pub struct ExprList {
    pub from: u32,
    pub len: u32,
}

/// An expression; its parts are those of these numbers.
#[derive(Clone, Copy)]
pub enum Expr {
    Truth(bool),
    Integer(i64),
    Bits(Pattern),
    /// A field or a parameter.
    Name(NameId),
    Not(ExprId),
    /// The left side and the right one.
    Binary(Op, ExprId, ExprId),
    Call(Func, ExprList),
    Set(ExprList),
    /// Bits joined, those of the first part being the highest.
    Join(ExprList),
    /// Of some bits those from a high one down to a low one.
    Slice(ExprId, ExprId, ExprId),
    /// None of these. Two of them need not mean the same.
    Other,
}
