//! Reads what stands between the quotes of a pattern's text.

ghost use Rattle.std.specs.Prelude.{◌≡◌, ◌+◌, ◌<◌, ◌≤◌, ◌^◌, length, position, filter_map, is_some, IfSome};
ghost use Rattle.std.specs.Result.{result_map_both};
ghost use Rattle.spec_bits.specs.PatternText.{digit_of, is_foreign, unquoted};
ghost use Rattle.bit_pattern.specs.Digits.{digits_below};
ghost use Rattle.bit_pattern.specs.Views.{digits_of, refusal_of};

use crate::fault::PatternFault;
use crate::pattern::Pattern;
use crate::prefix::Prefix;

/// The pattern that `bytes` write, which begin at place `start` of a text and have no quotes around them.
pub(crate) fn read_unquoted(start: u64, bytes: &[u8]) -> Result<Pattern, PatternFault>
    requires { start ≤ 1 }
    ensures { result_map_both digits_of refusal_of result ≡ unquoted start bytes.now }
{
    if let Some(place) = first_foreign(bytes) {
        return Err(PatternFault::BadChar {
            at: start + place as u64,
        });
    }
    match digit_count(bytes) {
        0 => Err(PatternFault::Empty),
        1..=128 => Ok(pattern_of(bytes)),
        _ => Err(PatternFault::TooWide),
    }
}

fn first_foreign(bytes: &[u8]) -> Option<usize>
    ensures first { result ≡ position is_foreign bytes.now }
    ensures within { IfSome result (λ place. place < length bytes.now) }
{
    bytes.iter().position(|byte| is_foreign(*byte))
}

fn pattern_of(bytes: &[u8]) -> Pattern
    requires some { 1 ≤ length (filter_map digit_of bytes.now) }
    requires fits { length (filter_map digit_of bytes.now) ≤ 128 }
    ensures { digits_of result ≡ filter_map digit_of bytes.now }
{
    let digits = prefix_of(bytes);
    Pattern {
        width: digits.width,
        mask: digits.mask,
        value: digits.value,
    }
}

fn prefix_of(bytes: &[u8]) -> Prefix
    requires { length (filter_map digit_of bytes.now) ≤ 128 }
    ensures digits { digits_below result.mask result.value result.width ≡ filter_map digit_of bytes.now }
    ensures width { result.width ≡ length (filter_map digit_of bytes.now) }
{
    let mut digits = Prefix::empty();
    for byte in bytes {
        digits = digits.with(*byte);
    }
    digits
}

#[tactic(auto, using(crate::proofs::ReadLaws::digit_count_is))]
fn digit_count(bytes: &[u8]) -> usize
    ensures { result ≡ length (filter_map digit_of bytes.now) }
{
    bytes.iter().filter(|byte| is_digit(**byte)).count()
}

fn is_foreign(byte: u8) -> bool
    ensures { result ≡ is_foreign byte }
{
    byte != b' ' && !is_digit(byte)
}

fn is_digit(byte: u8) -> bool
    ensures { result ≡ is_some (digit_of byte) }
{
    matches!(byte, b'0' | b'1' | b'x')
}
