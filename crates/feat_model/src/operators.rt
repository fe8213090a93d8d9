//! Operators of expressions that are connectives.

ghost use Rattle.std.specs.Prelude.{◌≡◌, option_map};
ghost use Rattle.mrs_arena.specs.Expressions.{op_of};
ghost use Rattle.spec_features.specs.Formula.{connective};
ghost use Rattle.feat_model.specs.Views.{connective_of};

use crate::connective::Connective;
use mrs_arena::Op;

/// The connective that an operator of expressions is, if it is one.
pub(crate) fn connective(op: Op) -> Option<Connective>
    ensures { option_map connective_of result ≡ connective (op_of op) }
{
    match op {
        Op::And => Some(Connective::Conjunction),
        Op::Or => Some(Connective::Disjunction),
        Op::Implies => Some(Connective::Implication),
        Op::Iff => Some(Connective::Equivalence),
        Op::Eq | Op::Ne | Op::Lt | Op::Le | Op::Gt | Op::Ge | Op::Member => None,
    }
}
