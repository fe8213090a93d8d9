//! Patterns without `x`, as the numbers that they write.

ghost use Rattle.std.specs.Prelude.{◌≡◌, ◌-◌, ◌≤◌, ◌^◌};

use crate::pattern::Pattern;
use crate::range::Range;
use crate::slicing::slice;

impl Pattern {
    ghost use Rattle.std.specs.Prelude.{◌≡◌, ◌<◌, ◌^◌, IfSome};
    ghost use Rattle.spec_bits.specs.Bits.{slice};
    ghost use Rattle.spec_bits.specs.Number.{low_digits, number_of};
    ghost use Rattle.bit_pattern.specs.Views.{digits_of};

    /// The bits of a range of a number, each of them fixed.
    pub fn of_slice(bits: u128, range: Range) -> Pattern
        ensures digits { digits_of result ≡ low_digits range.width (slice bits range.start range.width) }
        ensures width { result.width ≡ range.width }
    {
        Pattern {
            width: range.width,
            mask: ones(range.width),
            value: slice(bits, range),
        }
    }

    /// The number that the digits write; `None` where one of them is `x`.
    pub fn number(&self) -> Option<u128>
        ensures number { result ≡ number_of (digits_of self.now) }
        ensures fits { IfSome result (λ n. n < 2 ^ self.now.width) }
    {
        if self.mask == ones(self.width) {
            Some(self.value)
        } else {
            None
        }
    }
}

/// The number whose lowest `width` bits are 1, and no others.
#[tactic(auto, using(crate::proofs::KnownLaws::shifted_ones))]
fn ones(width: u8) -> u128
    requires some { 1 ≤ width }
    requires fits { width ≤ 128 }
    ensures { result ≡ 2 ^ width - 1 }
{
    u128::MAX >> (128 - width)
}
