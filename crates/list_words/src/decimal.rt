//! Decimal numbers.
ghost use Rattle.std.specs.Prelude.{◌≡◌, ◌++◌, ◌<◌, ◌≤◌, OnOk, decimal};

use itoa::Buffer;
use std::alloc::AllocError;

/// The digit of a number that has one.
fn one_digit(n: u32) -> [u8; 1]
    requires { n < 10 }
    ensures { result ≡ decimal n }
{
    [b'0' + n as u8]
}

/// The digits of a number that has two.
fn two_digits(n: u32) -> [u8; 2]
    requires least { 10 ≤ n }
    requires most { n < 100 }
    ensures { result ≡ decimal n }
{
    [b'0' + (n / 10) as u8, b'0' + (n % 10) as u8]
}

/// Appends a number in decimal. Most values of fields have one or two digits.
pub(crate) fn push_decimal(out: &mut Vec<u8>, n: u32) -> Result<(), AllocError>
    ensures { OnOk result (out.new.items ≡ out.old.items ++ decimal n) }
{
    if n < 10 {
        out.extend_from_slice(&one_digit(n))?;
    } else if n < 100 {
        out.extend_from_slice(&two_digits(n))?;
    } else {
        out.extend_from_slice(Buffer::new().format(n).as_bytes())?;
    }
    Ok(())
}
