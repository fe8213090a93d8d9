//! What expressions are worth.

use crate::kleene::Truth;
use bit_pattern::Pattern;

/// A truth, a whole number, or bits, some of which may be `x`.
#[derive(Clone, Copy)]
pub enum Val {
    Truth(Truth),
    Int(i128),
    Bits(Pattern),
}

impl Val {
    ghost use Rattle.std.specs.Prelude.{◌≡◌};
    ghost use Rattle.spec_expressions.specs.Operations.{as_truth};
    ghost use Rattle.ast_eval.specs.Views.{truth_of, value_of};

    /// The truth that this is; `Open` where it is no truth.
    pub fn truth(self) -> Truth
        ensures { truth_of result ≡ as_truth (value_of self) }
    {
        match self {
            Val::Truth(truth) => truth,
            Val::Int(_) | Val::Bits(_) => Truth::Open,
        }
    }
}
