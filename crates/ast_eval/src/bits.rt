//! What functions and slices make of bits.

ghost use Rattle.std.specs.Prelude.{◌≡◌, option_map, is_some, if◌then◌else◌};
ghost use Rattle.spec_bits.specs.Pattern.{pattern_holds};
ghost use Rattle.spec_bits.specs.Number.{number_of};
ghost use Rattle.spec_expressions.specs.Truth.{Open};
ghost use Rattle.spec_expressions.specs.Digits.{digits_between};
ghost use Rattle.spec_expressions.specs.Operations.{APattern, unsigned, all_are, sliced};
ghost use Rattle.bit_pattern.specs.Views.{digits_of};
ghost use Rattle.ast_eval.specs.BitNumber.{bit_number};
ghost use Rattle.ast_eval.specs.Views.{truth_of, known, value_of};

use crate::kleene::Truth;
use crate::val::Val;
use bit_pattern::{Pattern, Range};

/// The most bits that are taken as a number.
const MOST_UNSIGNED: u8 = 64;

/// The number of bits without `x`, of which there are at most 64.
pub(crate) fn unsigned(val: Val) -> Val
    ensures { value_of result ≡ unsigned (value_of val) }
{
    match val {
        Val::Bits(bits) => number_or_open(&bits),
        Val::Truth(_) | Val::Int(_) => Val::Truth(Truth::Open),
    }
}

fn number_or_open(bits: &Pattern) -> Val
    ensures { value_of result ≡ unsigned (APattern (digits_of bits.now)) }
{
    if bits.width > MOST_UNSIGNED {
        return Val::Truth(Truth::Open);
    }
    match bits.number() {
        Some(number) => Val::Int(number as i128),
        None => Val::Truth(Truth::Open),
    }
}

/// Of bits without `x`, whether all are 0.
#[tactic(auto, using(crate::proofs::BitsLaws::zeros_hold))]
pub(crate) fn are_zeros(val: Val) -> Truth
    ensures { truth_of result ≡ all_are 0 (value_of val) }
{
    match val {
        Val::Bits(bits) => known_to_hold(&bits, 0),
        Val::Truth(_) | Val::Int(_) => Truth::Open,
    }
}

/// Of bits without `x`, whether all are 1.
pub(crate) fn are_ones(val: Val) -> Truth
    ensures { truth_of result ≡ all_are 1 (value_of val) }
{
    match val {
        Val::Bits(bits) => known_to_hold(&bits, u128::MAX),
        Val::Truth(_) | Val::Int(_) => Truth::Open,
    }
}

/// Of bits without `x`, whether each equals that number's.
fn known_to_hold(bits: &Pattern, number: u128) -> Truth
    ensures { truth_of result ≡ (if is_some (number_of (digits_of bits.now)) then known (pattern_holds (digits_of bits.now) number) else Open) }
{
    match bits.number() {
        Some(_) => Truth::known(bits.holds(number)),
        None => Truth::Open,
    }
}

/// Of some bits those from a high one down to a low one.
pub(crate) fn sliced(val: Val, high: Val, low: Val) -> Val
    ensures { value_of result ≡ sliced (value_of val) (value_of high) (value_of low) }
{
    let (Val::Bits(bits), Val::Int(high), Val::Int(low)) = (val, high, low) else {
        return Val::Truth(Truth::Open);
    };
    match bits_between(&bits, high, low) {
        Some(part) => Val::Bits(part),
        None => Val::Truth(Truth::Open),
    }
}

/// The bits from a high one down to a low one; `None` where these are out of order, or one is not there.
fn bits_between(bits: &Pattern, high: i128, low: i128) -> Option<Pattern>
    ensures { option_map digits_of result ≡ digits_between high low (digits_of bits.now) }
{
    let Some(high) = bit_number(high) else {
        return None;
    };
    let Some(low) = bit_number(low) else {
        return None;
    };
    if low > high || high >= bits.width {
        return None;
    }
    Some(bits.part(Range {
        start: low,
        width: high - low + 1,
    }))
}

/// The number as that of a bit; `None` where there are never so many.
fn bit_number(number: i128) -> Option<u8>
    ensures { result ≡ bit_number number }
{
    u8::try_from(number).ok()
}
