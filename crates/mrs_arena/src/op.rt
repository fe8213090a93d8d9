//! Operators of two sides.

/// An operator of an expression of two sides: `&&`, `||`, `-->`, `<->`, `==`, `!=`, `<`, `<=`, `>`, `>=` or `IN`.
#[derive(Clone, Copy, PartialEq, Eq, Hash, Debug)]
pub enum Op {
    And,
    Or,
    Implies,
    Iff,
    Eq,
    Ne,
    Lt,
    Le,
    Gt,
    Ge,
    Member,
}
