//! Hexadecimal numbers.
ghost use Rattle.std.specs.Prelude.{◌≡◌, ◌++◌, ◌%◌, ◌≤◌, ◌&&◌, nat_lt, nat_le, false, length, drop, OnOk};
ghost use Rattle.std.specs.Fmt.{digit_glyph};
ghost use Rattle.spec_lines.specs.Hex.{hex};

use std::alloc::AllocError;

/// The digits, in lower case.
const DIGITS: [u8; 16] = *b"0123456789abcdef";

/// The two digits of each byte, in lower case.
const PAIRS: [u8; 512] =
    *b"000102030405060708090a0b0c0d0e0f101112131415161718191a1b1c1d1e1f202122232425262728292a2b2c2d2e2f303132333435363738393a3b3c3d3e3f404142434445464748494a4b4c4d4e4f505152535455565758595a5b5c5d5e5f606162636465666768696a6b6c6d6e6f707172737475767778797a7b7c7d7e7f808182838485868788898a8b8c8d8e8f909192939495969798999a9b9c9d9e9fa0a1a2a3a4a5a6a7a8a9aaabacadaeafb0b1b2b3b4b5b6b7b8b9babbbcbdbebfc0c1c2c3c4c5c6c7c8c9cacbcccdcecfd0d1d2d3d4d5d6d7d8d9dadbdcdddedfe0e1e2e3e4e5e6e7e8e9eaebecedeeeff0f1f2f3f4f5f6f7f8f9fafbfcfdfeff";

/// How many digits a number of 64 bits has at most.
const MOST: usize = 16;

/// The two digits of the last byte of a number.
fn two_digits(n: u32) -> [u8; 2]
    ensures { result ≡ hex 2 (n % 256) }
{
    let at = (n % 256) as usize * 2;
    [PAIRS[at], PAIRS[at + 1]]
}

/// The digits of a number of 32 bits, with zeros in front.
fn eight_digits(n: u32) -> [u8; 8]
    ensures { result ≡ hex 8 n }
{
    let [a, b] = two_digits(n >> 24);
    let [c, d] = two_digits(n >> 16);
    let [e, f] = two_digits(n >> 8);
    let [g, h] = two_digits(n);
    [a, b, c, d, e, f, g, h]
}

/// The last digit of a number.
fn last_digit(n: u64) -> u8
    ensures { result ≡ digit_glyph false (n % 16) }
{
    DIGITS[(n % 16) as usize]
}

/// Whether a number that is to have `width` digits is written as one digit.
fn is_one_digit(n: u64, width: u8) -> bool
    ensures { result ≡ (nat_lt n 16 && nat_le width 1) }
{
    n < 16 && width <= 1
}

/// Writes the digits of a number to the end of a text, from the last one on, and answers the place of the first.
fn write_hex(text: &mut [u8], n: u64, width: u8) -> usize
    requires room { length text.old ≡ 16 }
    requires width { width ≤ 16 }
    ensures within { result ≤ 16 }
    ensures digits { drop result text.new ≡ hex width n }
{
    let mut start = MOST;
    let mut rest = n;
    let mut left = width;
    while !is_one_digit(rest, left) {
        start -= 1;
        text[start] = last_digit(rest);
        rest /= 16;
        left = left.saturating_sub(1);
    }
    start -= 1;
    text[start] = last_digit(rest);
    start
}

/// Appends a number in hexadecimal, digit by digit, with zeros in front up to `width` digits. It takes room once.
fn push_digits(out: &mut Vec<u8>, n: u64, width: u8) -> Result<(), AllocError>
    requires { width ≤ 16 }
    ensures { OnOk result (out.new.items ≡ out.old.items ++ hex width n) }
{
    let mut text = [0u8; MOST];
    let start = write_hex(&mut text, n, width);
    out.extend_from_slice(&text[start..])?;
    Ok(())
}

/// Appends a number in hexadecimal, with zeros in front up to `width` digits. It takes room once.
pub(crate) fn push_hex(out: &mut Vec<u8>, n: u64, width: u8) -> Result<(), AllocError>
    requires { width ≤ 16 }
    ensures { OnOk result (out.new.items ≡ out.old.items ++ hex width n) }
{
    if width == 8 && n <= u64::from(u32::MAX) {
        out.extend_from_slice(&eight_digits(n as u32))?;
        return Ok(());
    }
    push_digits(out, n, width)
}
