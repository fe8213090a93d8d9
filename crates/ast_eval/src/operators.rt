//! Operators of two sides, and functions of one argument.

ghost use Rattle.std.specs.Prelude.{◌≡◌, None};
ghost use Rattle.spec_expressions.specs.Operations.{binary};
ghost use Rattle.mrs_arena.specs.Expressions.{op_of, function_of};
ghost use Rattle.ast_eval.specs.Called.{called_with};
ghost use Rattle.ast_eval.specs.Views.{truth_of, value_of};

use crate::bits::{are_ones, are_zeros, unsigned};
use crate::comparison::{equal, is_at_most, is_less};
use crate::kleene::Truth;
use crate::val::Val;
use mrs_arena::{Func, Op};

/// What an operator makes of the values of its sides: `Open` for a member, where the right side is a set as it is written.
pub(crate) fn of_two(op: Op, left: Val, right: Val) -> Truth
    ensures { truth_of result ≡ binary (op_of op) (value_of left) (value_of right) None }
{
    match op {
        Op::And => left.truth().and(right.truth()),
        Op::Or => left.truth().or(right.truth()),
        Op::Implies => left.truth().implies(right.truth()),
        Op::Iff => left.truth().iff(right.truth()),
        Op::Eq => equal(left, right),
        Op::Ne => equal(left, right).negated(),
        Op::Lt => is_less(left, right),
        Op::Le => is_at_most(left, right),
        Op::Gt => is_less(right, left),
        Op::Ge => is_at_most(right, left),
        Op::Member => Truth::Open,
    }
}

/// What a function makes of the value of its one argument: `Open` for a function that asks for a name, or has no meaning.
pub(crate) fn of_one(func: Func, arg: Val) -> Val
    ensures { value_of result ≡ called_with (function_of func) (value_of arg) }
{
    match func {
        Func::UInt => unsigned(arg),
        Func::IsZero => Val::Truth(are_zeros(arg)),
        Func::IsOnes => Val::Truth(are_ones(arg)),
        Func::IsFeatureImplemented | Func::Named(_) => Val::Truth(Truth::Open),
    }
}
