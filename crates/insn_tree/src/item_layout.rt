//! The bits of the word that items fix, the first item first, and those that they say should have a value, the last item first.

ghost use Rattle.std.specs.Prelude.{◌≡◌, ◌+◌, ◌≤◌, ◌||◌, ℕ, All, map};
ghost use Rattle.spec_encoding.specs.Parts.{covers};
ghost use Rattle.mrs_arena.specs.Views.{flat_item};
ghost use Rattle.word_layout.specs.Masks.{has_bit, IsMask};
ghost use Rattle.word_layout.specs.Views.{fixed_in};
ghost use Rattle.insn_tree.specs.Upward.{onto};
ghost use Rattle.insn_tree.specs.Layouts.{fix_first, should_last, some_covers};
ghost use Rattle.insn_tree.specs.Views.{flat_field};

use crate::field_range::FieldRange;
use mrs_arena::Item;
use word_layout::{FixedBits, field_bits};

/// What an item fixes, and else what deeper items do.
fn fixed_first(it: &Item, deeper: FixedBits) -> FixedBits
    ensures { (i : ℕ) → fixed_in result i ≡ fix_first i (flat_item it.now) (fixed_in deeper i) }
{
    FixedBits::at(it.start, &it.fixed()).over(deeper)
}

/// What deeper items say that bits should be, and else what an item says.
fn should_be_last(it: &Item, deeper: FixedBits) -> FixedBits
    ensures { (i : ℕ) → fixed_in result i ≡ should_last i (flat_item it.now) (fixed_in deeper i) }
{
    deeper.over(FixedBits::at(it.start, &it.should_be()))
}

/// What the items of a node fix, and else what deeper items do.
pub(crate) fn fixed_by_all(items: &[Item], deeper: FixedBits) -> FixedBits
    ensures { (i : ℕ) → fixed_in result i ≡ onto (fix_first i) (map flat_item items.now) (fixed_in deeper i) }
{
    let mut fixed = deeper;
    'items: for k in (0..items.len()).rev() {
        fixed = fixed_first(&items[k], fixed);
    }
    fixed
}

/// What deeper items say that bits should be, and else what the items of a node say.
pub(crate) fn should_be_by_all(items: &[Item], deeper: FixedBits) -> FixedBits
    ensures { (i : ℕ) → fixed_in result i ≡ onto (should_last i) (map flat_item items.now) (fixed_in deeper i) }
{
    let mut should_be = deeper;
    'items: for k in (0..items.len()).rev() {
        should_be = should_be_last(&items[k], should_be);
    }
    should_be
}

/// The bits with those of a field.
fn with_field(bits: u32, field: &FieldRange) -> u32
    requires { field.now.range.start + field.now.range.width ≤ 32 }
    ensures { IsMask result (λ i. has_bit bits i || covers field.now.range.start field.now.range.width i) }
{
    bits | field_bits(field.range)
}

/// The bits of fields.
pub(crate) fn bits_of_fields(fields: &[FieldRange]) -> u32
    requires { All (λ f. f.range.start + f.range.width ≤ 32) fields.now }
    ensures { IsMask result (λ i. some_covers i (map flat_field fields.now)) }
{
    let mut bits = 0;
    for field in fields {
        bits = with_field(bits, field);
    }
    bits
}
