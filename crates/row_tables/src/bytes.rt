//! Numbers and bytes as lines of a table write them.
use crate::stop::Stop;
use std::alloc::Global;

/// The first word of a line, and the text behind the space that follows it.
pub(crate) fn split_key(line: &str) -> (&str, &str) {
    line.split_once(' ').unwrap_or((line, ""))
}

/// The text between quotes, or the text where it has none: quotes show the spaces at its ends.
pub(crate) fn unquoted(text: &str) -> &str {
    let Some(rest) = text.strip_prefix('"') else {
        return text;
    };
    match rest.strip_suffix('"') {
        Some(inner) => inner,
        None => text,
    }
}

/// A decimal number.
pub(crate) fn number(text: &str) -> Result<u64, Stop> {
    match text.parse::<u64>() {
        Ok(number) => Ok(number),
        Err(_) => Err(Stop::Line("a number was expected")),
    }
}

/// A number below 2^32.
pub(crate) fn small_number(text: &str) -> Result<u32, Stop> {
    match text.parse::<u32>() {
        Ok(number) => Ok(number),
        Err(_) => Err(Stop::Line("a number below 4294967296 was expected")),
    }
}

/// A number of times, and the text behind it.
pub(crate) fn counted(text: &str) -> Result<(u32, &str), Stop> {
    let (count, rest) = split_key(text);
    Ok((small_number(count)?, rest))
}

/// Numbers with spaces between them.
pub(crate) fn numbers(alloc: Global, text: &str) -> Result<Vec<u32>, Stop> {
    let mut all = Vec::new(alloc);
    for word in text.split_whitespace() {
        all.push(small_number(word)?)?;
    }
    Ok(all)
}

/// Appends the bytes that a word of hexadecimal digits holds, two digits each.
fn push_digits(out: &mut Vec<u8>, word: &str) -> Result<(), Stop> {
    let mut high = None;
    for letter in word.chars() {
        let Some(digit) = letter.to_digit(16) else {
            return Err(Stop::Line("a hexadecimal digit was expected"));
        };
        let digit = digit.to_le_bytes()[0];
        match high {
            None => high = Some(digit),
            Some(upper) => {
                out.push(joined(upper, digit))?;
                high = None;
            }
        }
    }
    match high {
        None => Ok(()),
        Some(_) => Err(Stop::Line("a byte has two hexadecimal digits")),
    }
}

/// A byte of two hexadecimal digits.
fn joined(upper: u8, lower: u8) -> u8 {
    upper << 4 | lower
}

/// Bytes of two hexadecimal digits each, with or without spaces between them.
pub(crate) fn hex_bytes(alloc: Global, text: &str) -> Result<Vec<u8>, Stop> {
    let mut out = Vec::new(alloc);
    for word in text.split_whitespace() {
        push_digits(&mut out, word)?;
    }
    Ok(out)
}

/// The little-endian bytes of words of 32 bits, each written as its hexadecimal number.
pub(crate) fn word_bytes(alloc: Global, text: &str) -> Result<Vec<u8>, Stop> {
    let mut out = Vec::new(alloc);
    for word in text.split_whitespace() {
        match u32::from_str_radix(word, 16) {
            Ok(word) => out.extend_from_slice(&word.to_le_bytes())?,
            Err(_) => return Err(Stop::Line("a hexadecimal word of 32 bits was expected")),
        }
    }
    Ok(out)
}

/// Appends the bytes so many times.
pub(crate) fn push_times(out: &mut Vec<u8>, count: u32, bytes: &[u8]) -> Result<(), Stop> {
    for _ in 0..count {
        out.extend_from_slice(bytes)?;
    }
    Ok(())
}
