//! Bits of the word that are fixed, and to what.

ghost use Rattle.std.specs.Prelude.{◌≡◌, ◌<◌, ◌^◌, bit_and};

use bit_pattern::Pattern;

/// Bits of the word that are fixed, each to the value's bit. Bits of the value outside the mask are 0.
#[derive(Clone, Copy)]
pub struct FixedBits {
    pub mask: u32,
    pub value: u32,
    pub ghost inside: { bit_and value mask ≡ value },
    pub ghost fits: { mask < 2 ^ 32 },
}

impl FixedBits {
    ghost use Rattle.std.specs.Prelude.{◌≡◌, ◌≤◌, ◌+◌, ℕ, None};
    ghost use Rattle.std.specs.Option.{option_or};
    ghost use Rattle.spec_bits.specs.Item.{value_from};
    ghost use Rattle.bit_pattern.specs.Views.{digits_of};
    ghost use Rattle.word_layout.specs.Views.{fixed_in};

    /// No bits.
    pub fn none() -> FixedBits
        ensures { (i : ℕ) → fixed_in result i ≡ None }
    {
        FixedBits { mask: 0, value: 0 }
    }

    /// The bits that a pattern fixes, its digits standing from bit `start` up within the word.
    pub fn at(start: u8, pattern: &Pattern) -> FixedBits
        requires { start + pattern.now.width ≤ 32 }
        ensures { (i : ℕ) → fixed_in result i ≡ value_from start (digits_of pattern.now) i }
    {
        FixedBits {
            mask: (pattern.mask as u32) << start,
            value: (pattern.value as u32) << start,
        }
    }

    /// These bits, and the others where these fix none.
    #[tactic(auto, using(crate::proofs::OverRules::over_laws))]
    pub fn over(self, others: FixedBits) -> FixedBits
        ensures { (i : ℕ) → fixed_in result i ≡ option_or (fixed_in self i) (fixed_in others i) }
    {
        FixedBits {
            mask: self.mask | others.mask,
            value: self.value | (others.value ^ (others.value & self.mask)),
        }
    }
}
