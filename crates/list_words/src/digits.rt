//! Patterns, as digits.
ghost use Rattle.std.specs.Prelude.{◌≡◌, ◌++◌, ◌<◌, ◌≤◌, map, OnOk, option_map};
ghost use Rattle.bit_pattern.specs.Digits.{digit_at, digits_below};
ghost use Rattle.bit_pattern.specs.Views.{digits_of};
ghost use Rattle.spec_lines.specs.Leaf.{bits_text, digit_text};

use bit_pattern::Pattern;
use std::alloc::AllocError;

/// Appends the digits of a pattern, or that there is none.
pub(crate) fn push_bits(out: &mut Vec<u8>, bits: Option<Pattern>) -> Result<(), AllocError>
    ensures { OnOk result (out.new.items ≡ out.old.items ++ bits_text (option_map digits_of bits)) }
{
    match bits {
        Some(pattern) => push_digits(out, &pattern, pattern.width),
        None => {
            out.extend_from_slice(b"clash")?;
            Ok(())
        }
    }
}

/// Appends the digits of the bits below `below`, the highest first.
#[cycle(below)]
fn push_digits(out: &mut Vec<u8>, pattern: &Pattern, below: u8) -> Result<(), AllocError>
    requires { below ≤ 128 }
    ensures { OnOk result (out.new.items ≡ out.old.items ++ map digit_text (digits_below pattern.now.mask pattern.now.value below)) }
{
    if below == 0 {
        return Ok(());
    }
    out.push(digit_byte(pattern, below - 1))?;
    push_digits(out, pattern, below - 1)
}

/// The digit of bit `i`: `0`, `1` or `x`.
fn digit_byte(pattern: &Pattern, i: u8) -> u8
    requires { i < 128 }
    ensures { result ≡ digit_text (digit_at pattern.now.mask pattern.now.value i) }
{
    if (pattern.mask >> i) % 2 == 0 {
        b'x'
    } else if (pattern.value >> i) % 2 == 0 {
        b'0'
    } else {
        b'1'
    }
}
