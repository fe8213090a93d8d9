//! The front of a text: bytes, numbers and literals.

ghost use Rattle.std.specs.Prelude.{◌≡◌, ◌≢◌, ◌+◌, ◌*◌, ◌^◌, ◌<◌, ◌≤◌, ℕ, ℤ, List, ◌∷◌, ◌++◌, false, decimal, IfSome, IfNone, SomeIff};
ghost use Rattle.std.specs.Fmt.{signed_decimal};
ghost use Rattle.spec_refutation.specs.Text.{begins_with_digit};
ghost use Rattle.spec_refutation.specs.Reading.{IsLiteral};
ghost use Rattle.spec_refutation.specs.Scans.{Begins, NoNumber, NoSpacedNumber, NoLiteral, NoSpacedLiteral};

use crate::literals::Lit;

/// The bytes after this one, where the text begins with it.
pub fn after(text: &[u8], byte: u8) -> Option<&[u8]>
    ensures found { IfSome result (λ rest. text.now ≡ byte ∷ rest.now) }
    ensures none { IfNone result ((rest : List ℕ) → text.now ≢ byte ∷ rest) }
{
    match text.split_first() {
        Some((first, rest)) if *first == byte => Some(rest),
        _ => None,
    }
}

/// The value of the decimal digit at the front, and the bytes after it.
fn digit(text: &[u8]) -> Option<(u64, &[u8])>
    ensures found { IfSome result (λ r. (r.0 ≤ 9) × (text.now ≡ (48 + r.0) ∷ r.1.now)) }
    ensures none { IfNone result (begins_with_digit text.now ≡ false) }
{
    let (first, rest) = text.split_first()?;
    if first.is_ascii_digit() {
        Some((u64::from(*first - b'0'), rest))
    } else {
        None
    }
}

/// A number with a digit more.
fn with_digit(number: u64, digit: u64) -> Option<u64>
    requires { digit ≤ 9 }
    ensures { SomeIff result (number * 10 + digit < 2 ^ 64) (number * 10 + digit) }
{
    number.checked_mul(10)?.checked_add(digit)
}

/// The number at the front, and the bytes after it.
fn number(text: &[u8]) -> Option<(u64, &[u8])>
    ensures fits { IfSome result (λ r. r.0 < 2 ^ 64) }
    ensures found { IfSome result (λ r. Begins text.now (decimal r.0) r.1.now) }
    ensures none { IfNone result (NoNumber 0 18446744073709551615 text.now) }
{
    let (first, mut rest) = digit(text)?;
    if first == 0 {
        return match digit(rest) {
            None => Some((0, rest)),
            Some(_) => None,
        };
    }
    let mut number = first;
    'digits: while let Some((next, after)) = digit(rest) {
        number = with_digit(number, next)?;
        rest = after;
    }
    Some((number, rest))
}

/// The number at the front, if it is from `least` to `most`, and the bytes after it.
fn number_within(text: &[u8], least: u64, most: u64) -> Option<(u64, &[u8])>
    ensures within { IfSome result (λ r. (least ≤ r.0) × (r.0 ≤ most)) }
    ensures found { IfSome result (λ r. Begins text.now (decimal r.0) r.1.now) }
    ensures none { IfNone result (NoNumber least most text.now) }
{
    let (number, rest) = number(text)?;
    if number < least || most < number {
        return None;
    }
    Some((number, rest))
}

/// The number from `least` to `most` after a space at the front, and the bytes after it.
pub fn spaced_number(text: &[u8], least: u64, most: u64) -> Option<(u64, &[u8])>
    ensures within { IfSome result (λ r. (least ≤ r.0) × (r.0 ≤ most)) }
    ensures found { IfSome result (λ r. Begins text.now (32 ∷ decimal r.0) r.1.now) }
    ensures none { IfNone result (NoSpacedNumber least most text.now) }
{
    number_within(after(text, b' ')?, least, most)
}

/// The literal at the front, and the bytes after it.
fn literal(text: &[u8], vars: u32) -> Option<(Lit, &[u8])>
    requires { vars ≤ 2147483647 }
    ensures within { IfSome result (λ r. IsLiteral vars r.0) }
    ensures found { IfSome result (λ r. Begins text.now (signed_decimal r.0) r.1.now) }
    ensures none { IfNone result (NoLiteral vars text.now) }
{
    match after(text, b'-') {
        Some(size) => {
            let (variable, rest) = number_within(size, 1, u64::from(vars))?;
            Some((Lit::new(-(variable as i32)), rest))
        }
        None => {
            let (variable, rest) = number_within(text, 1, u64::from(vars))?;
            Some((Lit::new(variable as i32), rest))
        }
    }
}

/// The literal after a space at the front, and the bytes after it.
pub fn spaced_literal(text: &[u8], vars: u32) -> Option<(Lit, &[u8])>
    requires { vars ≤ 2147483647 }
    ensures within { IfSome result (λ r. IsLiteral vars r.0) }
    ensures found { IfSome result (λ r. Begins text.now (32 ∷ signed_decimal r.0) r.1.now) }
    ensures none { IfNone result (NoSpacedLiteral vars text.now) }
{
    literal(after(text, b' ')?, vars)
}
