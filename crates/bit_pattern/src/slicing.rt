//! Slices of numbers.

ghost use Rattle.std.specs.Prelude.{◌≡◌};
ghost use Rattle.spec_bits.specs.Bits.{slice};

use crate::range::Range;

/// The bits of a range, as a number: floor(`bits` / 2^start) mod 2^width.
#[tactic(auto, using(crate::proofs::SliceLaws::masked_is_slice))]
pub fn slice(bits: u128, r: Range) -> u128
    ensures { result ≡ slice bits r.start r.width }
{
    (bits >> r.start) & (u128::MAX >> (128 - r.width))
}
