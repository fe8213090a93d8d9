//! Why lines say no words.

use insn_encode::EncodeFault;

/// The first reason why a line says no word, and the place of the byte at which it is refused, from 0.
#[derive(Clone, Copy, PartialEq, Eq, Debug)]
pub struct LineFault {
    pub at: u32,
    pub why: LineWhy,
}

/// Why a line says no word.
#[derive(Clone, Copy, PartialEq, Eq, Debug)]
pub enum LineWhy {
    /// The line has more than 65,536 bytes.
    Long,
    /// The first token is none of `leaf`, `alias` and `word`, or there is none.
    Head,
    /// The token behind `leaf` is no label of a leaf, or that behind `alias` none of an alias, or there is none.
    Label,
    /// The token behind `word` is no number below 2^32, or there is none, or a third token follows; or a token behind a label
    /// is no `NAME=NUMBER`, or is a second `rest=`.
    Pair,
    /// There are more than 256 fields, the rest not counted.
    Many,
    /// The fields and the rest are encoded to no word.
    Encode(EncodeFault),
}
