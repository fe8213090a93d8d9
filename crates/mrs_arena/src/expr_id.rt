//! Numbers of expressions.

/// The number of an expression. Expressions are numbered from 0 in the order in which they were put, each behind its parts.
#[derive(Clone, Copy, PartialEq, Eq, PartialOrd, Ord, Hash, Debug)]
pub struct ExprId(pub u32);
