//! Connectives of two sides.

/// A connective of two sides.
#[derive(Clone, Copy)]
pub(crate) enum Connective {
    Conjunction,
    Disjunction,
    /// Not the left side, or else the right one: `-->`.
    Implication,
    Equivalence,
}
