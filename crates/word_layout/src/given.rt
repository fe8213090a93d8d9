//! The bits that are given by values of fields.

ghost use Rattle.std.specs.Prelude.{◌≡◌, ◌<◌, ◌≤◌, ◌+◌, ◌^◌, ◌||◌, List};
ghost use Rattle.spec_encoding.specs.Parts.{Part, gives, highest, is_clash};
ghost use Rattle.word_layout.specs.Masks.{has_bit, IsMask, GivesParts};
ghost use Rattle.word_layout.specs.Views.{part_of};

use crate::highest::highest_bit;
use crate::ranges::field_bits;
use bit_pattern::Range;

/// The bits that are given the value 1, and those that are given 0. A bit that is given both clashes.
#[derive(Clone, Copy)]
pub struct Given {
    pub ones: u32,
    pub zeros: u32,
}

impl Given {
    /// No bits.
    pub fn none() -> Given
        ensures ones { result.ones ≡ 0 }
        ensures zeros { result.zeros ≡ 0 }
    {
        Given { ones: 0, zeros: 0 }
    }

    /// The bits that are given, and those that a field's value gives.
    pub fn with(self, range: Range, value: u32) -> Given
        requires within { range.start + range.width ≤ 32 }
        requires fits { value < 2 ^ range.width }
        ensures ones { IsMask result.ones (λ i. has_bit self.ones i || gives i 1 (part_of range value)) }
        ensures zeros { IsMask result.zeros (λ i. has_bit self.zeros i || gives i 0 (part_of range value)) }
    {
        let placed = value << range.start;
        Given {
            ones: self.ones | placed,
            zeros: self.zeros | (field_bits(range) ^ placed),
        }
    }

    /// The highest bit that is given both values.
    pub fn clash_bit(&self) -> Option<u8>
        ensures { (ps : List Part) → GivesParts ps self.now.ones self.now.zeros → result ≡ highest (is_clash ps) 32 }
    {
        highest_bit(self.zeros & self.ones)
    }
}
