//! Fields, each a name for a range of bits.

use bit_pattern::Range;
use mrs_names::NameId;

/// A field: a name for a range of the bits of the word.
#[derive(Clone, Copy, PartialEq, Eq, Debug)]
pub struct FieldRange {
    pub name: NameId,
    pub range: Range,
}
