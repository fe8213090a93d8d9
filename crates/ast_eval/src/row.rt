//! Bits that are joined part by part.

use crate::kleene::Truth;
use crate::val::Val;
use bit_pattern::Pattern;

/// The parts of a join that were taken, those of the first being the highest: none, bits, or what is no bits.
#[derive(Clone, Copy)]
pub(crate) enum Row {
    Start,
    Bits(Pattern),
    Open,
}

impl Row {
    ghost use Rattle.std.specs.Prelude.{◌≡◌, List, [], ◌∷◌};
    ghost use Rattle.spec_expressions.specs.Operations.{Value};
    ghost use Rattle.ast_eval.specs.Views.{value_of};
    ghost use Rattle.ast_eval.specs.Rows.{joined_with};

    /// The parts and one more.
    pub(crate) fn with(self, part: Val) -> Row
        ensures { (vs : List Value) → joined_with result vs ≡ joined_with self (value_of part ∷ vs) }
    {
        let Val::Bits(bits) = part else {
            return Row::Open;
        };
        match self {
            Row::Start => Row::Bits(bits),
            Row::Bits(higher) => match higher.followed_by(&bits) {
                Some(row) => Row::Bits(row),
                None => Row::Open,
            },
            Row::Open => Row::Open,
        }
    }

    /// What the parts are as one value: `Open` where there are none.
    pub(crate) fn value(self) -> Val
        ensures { value_of result ≡ joined_with self [] }
    {
        match self {
            Row::Bits(bits) => Val::Bits(bits),
            Row::Start | Row::Open => Val::Truth(Truth::Open),
        }
    }
}
