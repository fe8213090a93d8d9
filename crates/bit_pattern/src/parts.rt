//! Parts of patterns, and patterns end to end.

ghost use Rattle.std.specs.Prelude.{◌≡◌, ◌+◌, ◌*◌, ◌<◌, ◌≤◌, ◌^◌};

use crate::pattern::Pattern;
use crate::range::Range;
use crate::slicing::slice;

impl Pattern {
    ghost use Rattle.std.specs.Prelude.{◌≡◌, ◌+◌, ◌-◌, ◌≤◌, ◌++◌, length, nat_le, slice_range, option_map, if◌then◌else◌};
    ghost use Rattle.bit_pattern.specs.Views.{digits_of};

    /// The digits for a range of the bits.
    pub fn part(&self, range: Range) -> Pattern
        requires { range.start + range.width ≤ self.now.width }
        ensures { digits_of result ≡ slice_range (digits_of self.now) (self.now.width - (range.start + range.width)) (self.now.width - range.start) }
    {
        Pattern {
            width: range.width,
            mask: slice(self.mask, range),
            value: slice(self.value, range),
        }
    }

    /// The digits and behind them those of `lower`; `None` where they are more than 128.
    pub fn followed_by(&self, lower: &Pattern) -> Option<Pattern>
        ensures { option_map digits_of result ≡ (let digits = digits_of self.now ++ digits_of lower.now in if nat_le (length digits) 128 then Some digits else None) }
    {
        if self.width > 128 - lower.width {
            return None;
        }
        Some(self.in_front_of(lower))
    }

    fn in_front_of(&self, lower: &Pattern) -> Pattern
        requires { self.now.width + lower.now.width ≤ 128 }
        ensures { digits_of result ≡ digits_of self.now ++ digits_of lower.now }
    {
        Pattern {
            width: self.width + lower.width,
            mask: beside(self.mask, lower.mask, lower.width),
            value: beside(self.value, lower.value, lower.width),
        }
    }
}

/// The bits of a number above the `width` bits of another one.
#[tactic(auto, using(crate::proofs::EndLaws::shifted_beside))]
fn beside(high: u128, low: u128, width: u8) -> u128
    requires some { width < 128 }
    requires fits { high * 2 ^ width < 2 ^ 128 }
    requires low { low < 2 ^ width }
    ensures { result ≡ high * 2 ^ width + low }
{
    high << width | low
}
