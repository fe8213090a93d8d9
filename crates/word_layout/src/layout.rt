//! What is known of the bits of words.

ghost use Rattle.std.specs.Prelude.{◌≡◌, ◌<◌, ◌^◌, bit_and};

use crate::fixed_bits::FixedBits;
use crate::given::Given;
use crate::highest::highest_bit;
use crate::ranges::field_bits;
use bit_pattern::Range;

/// The bits that are fixed, each to the value's bit; the free ones, which are neither fixed nor in a field; and the defaults
/// of these, which are 0 elsewhere.
#[derive(Clone, Copy)]
pub struct WordLayout {
    pub mask: u32,
    pub value: u32,
    pub free: u32,
    pub default: u32,
    pub ghost inside: { bit_and value mask ≡ value },
    pub ghost apart: { bit_and free mask ≡ 0 },
    pub ghost defaults: { bit_and default free ≡ default },
    pub ghost mask_fits: { mask < 2 ^ 32 },
    pub ghost free_fits: { free < 2 ^ 32 },
}

impl WordLayout {
    ghost use Rattle.std.specs.Prelude.{◌≡◌, ◌<◌, ◌≤◌, ◌+◌, ◌&&◌, ℕ, List, not, is_none, unwrap_or, if◌then◌else◌};
    ghost use Rattle.spec_bits.specs.Bits.{bit_of};
    ghost use Rattle.spec_encoding.specs.Parts.{Part, highest};
    ghost use Rattle.spec_encoding.specs.Layout.{is_misfixed, is_stray, rest_in};
    ghost use Rattle.spec_encoding.specs.Placed.{made};
    ghost use Rattle.spec_encoding.specs.PathLayout.{is_open};
    ghost use Rattle.word_layout.specs.Masks.{has_bit, IsMask, GivesParts, fixed_by};
    ghost use Rattle.word_layout.specs.Views.{fixed_in, layout_of};

    /// The layout of words with these bits fixed and these in fields. The default of a free bit is what `should_be` fixes it
    /// to, and 0 where that does not.
    pub fn new(fixed: FixedBits, in_fields: u32, should_be: FixedBits) -> WordLayout
        ensures fixed { (i : ℕ) → fixed_by result.mask result.value i ≡ fixed_in fixed i }
        ensures free { IsMask result.free (λ i. is_none (fixed_in fixed i) && not (has_bit in_fields i)) }
        ensures default { (i : ℕ) → bit_of result.default i ≡ (if has_bit result.free i then unwrap_or (fixed_in should_be i) 0 else 0) }
    {
        let free = !(fixed.mask | in_fields);
        WordLayout {
            mask: fixed.mask,
            value: fixed.value,
            free,
            default: should_be.value & free,
        }
    }

    /// Whether some bit of a range is not fixed.
    pub fn is_open(&self, range: Range) -> bool
        requires { range.start + range.width ≤ 32 }
        ensures { result ≡ is_open (fixed_by self.now.mask self.now.value) range.start range.width }
    {
        field_bits(range) & !self.mask != 0
    }

    /// The rest of a word: its free bits against their defaults.
    pub fn rest_of(&self, w: u32) -> u32
        ensures { result ≡ rest_in (layout_of self.now) w }
    {
        (w ^ self.default) & self.free
    }

    /// The highest bit that is given another value than the one to which it is fixed.
    pub fn misfixed_bit(&self, given: Given) -> Option<u8>
        ensures { (ps : List Part) → GivesParts ps given.ones given.zeros → result ≡ highest (is_misfixed (layout_of self.now) ps) 32 }
    {
        highest_bit((given.zeros & self.value) | (given.ones & (self.mask ^ self.value)))
    }

    /// The highest bit of a rest that is not free.
    pub fn stray_bit(&self, rest: u32) -> Option<u8>
        ensures { result ≡ highest (is_stray (layout_of self.now) rest) 32 }
    {
        highest_bit(rest & !self.free)
    }

    /// The word that is made: a bit that is not given is what it is fixed to, and else as the rest has it.
    pub fn made(&self, given: Given, rest: u32) -> u32
        ensures { (ps : List Part) → GivesParts ps given.ones given.zeros → result ≡ made (layout_of self.now) ps rest }
    {
        given.ones | (!given.zeros & (self.value | (self.free & (self.default ^ rest))))
    }
}
