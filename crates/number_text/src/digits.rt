//! The number of digits.

ghost use Rattle.std.specs.Prelude.{◌≡◌, ◌≤◌, ◌<◌, ◌+◌, ◌*◌, Some};
ghost use Rattle.std.specs.Option.{option_and_then};
ghost use Rattle.spec_command.specs.Number as spec;

/// What a hexadecimal digit of either case stands for.
fn digit_value(byte: u8) -> Option<u8>
    ensures { result ≡ spec.digit_value byte }
{
    match byte {
        b'0'..=b'9' => Some(byte - b'0'),
        b'a'..=b'f' => Some(byte - b'a' + 10),
        b'A'..=b'F' => Some(byte - b'A' + 10),
        _ => None,
    }
}

/// A number, where it is below `bound`.
fn if_below(number: u128, bound: u128) -> Option<u128>
    ensures { result ≡ spec.if_below bound number }
{
    if number < bound { Some(number) } else { None }
}

/// The value of a digit of that base.
fn digit_in(base: u8, byte: u8) -> Option<u8>
    ensures { result ≡ spec.digit_in base byte }
{
    let digit = digit_value(byte)?;
    if digit < base { Some(digit) } else { None }
}

/// A number with a digit more, where it is below `bound`.
fn with_digit(number: u128, base: u8, digit: u8, bound: u128) -> Option<u128>
    ensures { result ≡ spec.if_below bound (base * number + digit) }
{
    let number = u128::from(base)
        .checked_mul(number)?
        .checked_add(u128::from(digit))?;
    if_below(number, bound)
}

/// The number of the digits of a text, where it is below `bound`. Once the digits so far are not, no more of them help.
pub(crate) fn digits_below(text: &[u8], base: u8, bound: u128) -> Option<u128>
    requires { 2 ≤ base }
    ensures { result ≡ option_and_then (spec.if_below bound) (spec.number_of_digits base text.now) }
{
    if text.is_empty() {
        return None;
    }
    let mut number = 0;
    for byte in text {
        let digit = digit_in(base, *byte)?;
        number = with_digit(number, base, digit, bound)?;
    }
    if_below(number, bound)
}
