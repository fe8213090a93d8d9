//! The bits of a field, and which values fit it.

ghost use Rattle.std.specs.Prelude.{◌≡◌, ◌+◌, ◌≤◌};
ghost use Rattle.spec_encoding.specs.Parts.{covers, is_too_wide};
ghost use Rattle.word_layout.specs.Masks.{IsMask};
ghost use Rattle.word_layout.specs.Views.{part_of};

use bit_pattern::Range;

/// The bits of a range that lies within the word.
pub fn field_bits(range: Range) -> u32
    requires { range.start + range.width ≤ 32 }
    ensures { IsMask result (covers range.start range.width) }
{
    (u32::MAX >> (32 - range.width)) << range.start
}

/// Whether a value has more bits than a range that lies within the word.
#[tactic(auto, using(crate::proofs::MaskLaws::wide_test))]
pub fn is_too_wide(range: Range, value: u32) -> bool
    requires { range.start + range.width ≤ 32 }
    ensures { result ≡ is_too_wide (part_of range value) }
{
    value > u32::MAX >> (32 - range.width)
}
