//! Why fields are encoded to no word.

use mrs_arena::NodeId;
use mrs_names::NameId;

/// The first reason why pairs of fields and values, and a rest, are encoded to no word. Pairs are counted from 0, and bits
/// from the lowest.
#[derive(Clone, Copy, PartialEq, Eq, Debug)]
pub enum EncodeFault {
    /// The first pair whose name is not that of a shown field.
    UnknownField { i: u32 },
    /// The first pair whose name stood in an earlier pair.
    DoubledField { i: u32 },
    /// The name of the first shown field without a pair.
    MissingField { name: NameId },
    /// The first pair whose value does not fit its field.
    TooWide { i: u32 },
    /// The highest bit to which two fields give different values.
    Clash { bit: u8 },
    /// The highest bit to which a field gives another value than the first item that fixes it.
    FixedBit { bit: u8 },
    /// The highest bit of the rest that is not free and unnamed.
    RestBit { bit: u8 },
    /// The first node from the root with an item that does not hold at the word that is made, or a condition that is No.
    Excluded { node: NodeId },
}
