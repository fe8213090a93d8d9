//! Tokens of lines.

/// The bytes of a token, none of which is a space, and the place of the first in its line.
#[derive(Clone, Copy, Debug)]
pub(crate) struct Token<'a> {
    pub(crate) at: u32,
    pub(crate) text: &'a [u8],
}
