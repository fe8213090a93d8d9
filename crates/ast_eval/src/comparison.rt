//! Two values compared.

ghost use Rattle.std.specs.Prelude.{◌≡◌, int_lt, int_le};
ghost use Rattle.spec_expressions.specs.Digits.{equal_digits};
ghost use Rattle.spec_expressions.specs.Operations.{equal, compared};
ghost use Rattle.bit_pattern.specs.Views.{digits_of};
ghost use Rattle.ast_eval.specs.Views.{truth_of, value_of};

use crate::kleene::Truth;
use crate::val::Val;
use bit_pattern::Pattern;

/// Whether two truths, two whole numbers or two bit values are equal.
pub(crate) fn equal(left: Val, right: Val) -> Truth
    ensures { truth_of result ≡ equal (value_of left) (value_of right) }
{
    match (left, right) {
        (Val::Truth(a), Val::Truth(b)) => a.iff(b),
        (Val::Int(x), Val::Int(y)) => Truth::known(x == y),
        (Val::Bits(p), Val::Bits(q)) => equal_bits(&p, &q),
        _ => Truth::Open,
    }
}

/// Of two bit values of one width, where one is without `x`: whether the other's pattern holds of it.
fn equal_bits(left: &Pattern, right: &Pattern) -> Truth
    ensures { truth_of result ≡ equal_digits (digits_of left.now) (digits_of right.now) }
{
    if left.width != right.width {
        return Truth::Open;
    }
    if let Some(number) = left.number() {
        return Truth::known(right.holds(number));
    }
    match right.number() {
        Some(number) => Truth::known(left.holds(number)),
        None => Truth::Open,
    }
}

/// Of two whole numbers, whether the left one is smaller.
pub(crate) fn is_less(left: Val, right: Val) -> Truth
    ensures { truth_of result ≡ compared int_lt (value_of left) (value_of right) }
{
    match (left, right) {
        (Val::Int(x), Val::Int(y)) => Truth::known(x < y),
        _ => Truth::Open,
    }
}

/// Of two whole numbers, whether the left one is no larger.
pub(crate) fn is_at_most(left: Val, right: Val) -> Truth
    ensures { truth_of result ≡ compared int_le (value_of left) (value_of right) }
{
    match (left, right) {
        (Val::Int(x), Val::Int(y)) => Truth::known(x <= y),
        _ => Truth::Open,
    }
}
