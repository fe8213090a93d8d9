//! Formulas over variables.

use crate::connective::Connective;

/// A formula. Variables are numbered from 1.
#[derive(Drop)]
pub(crate) enum Formula {
    Constant(bool),
    Variable(u32),
    Negation(Box<Formula>),
    /// The left side and the right one.
    Joined(Connective, Box<Formula>, Box<Formula>),
}
