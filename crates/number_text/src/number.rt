//! The number that a text says.

ghost use Rattle.std.specs.Prelude.{◌≡◌};
ghost use Rattle.spec_command.specs.Number as spec;

use crate::digits::digits_below;

/// The number that a text says, where it says one below `bound`: decimal digits, or `0x` and hexadecimal digits of either
/// case. There is at least one digit; zeros may stand in front, and there may be any number of digits.
pub fn number_below(text: &[u8], bound: u128) -> Option<u128>
    ensures { result ≡ spec.number_below bound text.now }
{
    match text.strip_prefix(b"0x") {
        Some(digits) => digits_below(digits, 16, bound),
        None => digits_below(text, 10, bound),
    }
}
