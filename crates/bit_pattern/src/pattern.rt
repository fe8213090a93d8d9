//! Patterns as two numbers: which bits are fixed, and to what.

ghost use Rattle.std.specs.Prelude.{◌≡◌, ◌<◌, ◌≤◌, ◌^◌, bit_and};

use crate::fault::PatternFault;
use crate::reading::read_unquoted;

/// 1 to 128 digits `0`, `1` and `x`, for bits `width - 1` down to 0 of a number, as in the bit patterns of Arm's pseudocode.
///
/// `mask` has the bits that are fixed, and `value` those that are fixed to 1.
#[derive(Clone, Copy, PartialEq, Eq, Debug)]
pub struct Pattern {
    pub width: u8,
    pub mask: u128,
    pub value: u128,
    pub ghost some: { 1 ≤ width },
    pub ghost fits: { width ≤ 128 },
    pub ghost mask_fits: { mask < 2 ^ width },
    pub ghost value_in_mask: { bit_and value mask ≡ value },
}

impl Pattern {
    ghost use Rattle.std.specs.Prelude.{IfSome, option_map};
    ghost use Rattle.std.specs.Result.{result_map_both};
    ghost use Rattle.spec_bits.specs.Pattern.{pattern_holds, joined};
    ghost use Rattle.spec_bits.specs.PatternText.{pattern_in};
    ghost use Rattle.bit_pattern.specs.Views.{digits_of, refusal_of};

    /// The pattern that a text writes, as `'10x'` or `10x`: the leftmost digit is the highest bit, and spaces are skipped.
    ///
    /// Of several faults the first is answered, in the order `Unquoted`, `BadChar`, `TooWide`, `Empty`.
    pub fn read(text: &str) -> Result<Pattern, PatternFault>
        ensures { result_map_both digits_of refusal_of result ≡ pattern_in text.now }
    {
        match text.as_bytes() {
            [b'\'', inside @ .., b'\''] => read_unquoted(1, inside),
            [b'\'', ..] => Err(PatternFault::Unquoted { at: 0 }),
            [before @ .., b'\''] => Err(PatternFault::Unquoted {
                at: before.len() as u64,
            }),
            bytes => read_unquoted(0, bytes),
        }
    }

    /// Whether every fixed digit equals its bit of `bits`. Bits from the width on are not read.
    #[tactic(auto, using(crate::proofs::HoldsLaws::digits_hold))]
    pub fn holds(&self, bits: u128) -> bool
        ensures { result ≡ pattern_holds (digits_of self.now) bits }
    {
        bits & self.mask == self.value
    }

    /// Two patterns of one width as one, which fixes a bit where either does; `None` where a bit fixed in both differs.
    #[tactic(auto, using(crate::proofs::JoinLaws::joins))]
    pub fn joined(&self, other: &Pattern) -> Option<Pattern>
        requires { self.now.width ≡ other.now.width }
        ensures digits { option_map digits_of result ≡ joined (digits_of self.now) (digits_of other.now) }
        ensures width { IfSome result (λ p. p.width ≡ self.now.width) }
    {
        if (self.value ^ other.value) & self.mask & other.mask != 0 {
            return None;
        }
        Some(Pattern {
            width: self.width,
            mask: self.mask | other.mask,
            value: self.value | other.value,
        })
    }
}
