//! Items of an instruction's encoding.

ghost use Rattle.std.specs.Prelude.{◌≡◌, ◌+◌, ◌≤◌, bit_and};

use bit_pattern::Pattern;
use mrs_names::NameId;

/// A pattern at a place of the word: its digits stand from bit `start` up, within the word's 32 bits.
///
/// The bits of `should` mark its should-be digits, each of them `0` or `1`; bit 0 marks the last digit.
#[derive(Clone, Copy, PartialEq, Eq, Debug)]
pub struct Item {
    pub name: Option<NameId>,
    pub start: u8,
    pub pattern: Pattern,
    pub should: u32,
    pub ghost fits: { start + pattern.width ≤ 32 },
    pub ghost marked: { bit_and should pattern.mask ≡ should },
}

impl Item {
    ghost use Rattle.std.specs.Prelude.{None};
    ghost use Rattle.spec_bits.specs.Item.{fixed_digits, should_be_digits, item_holds};
    ghost use Rattle.bit_pattern.specs.Views.{digits_of};
    ghost use Rattle.mrs_arena.specs.Flat.{with_text};
    ghost use Rattle.mrs_arena.specs.Nodes.{has_name_id};
    ghost use Rattle.mrs_arena.specs.Views.{flat_item};

    /// Whether the item has that name.
    pub fn is_named(&self, name: NameId) -> bool
        ensures { result ≡ has_name_id name.0 (flat_item self.now) }
    {
        match self.name {
            Some(other) => other == name,
            None => false,
        }
    }

    /// The item's pattern with `x` in place of the should-be digits: what the item fixes.
    pub fn fixed(&self) -> Pattern
        ensures digits { digits_of result ≡ fixed_digits (with_text None (flat_item self.now)) }
        ensures width { result.width ≡ self.now.pattern.width }
    {
        let should = u128::from(self.should);
        let mask = self.pattern.mask ^ (self.pattern.mask & should);
        Pattern {
            width: self.pattern.width,
            mask,
            value: self.pattern.value & mask,
        }
    }

    /// The item's pattern with `x` in place of the digits that are not should-be: what the bits should be.
    pub fn should_be(&self) -> Pattern
        ensures digits { digits_of result ≡ should_be_digits (with_text None (flat_item self.now)) }
        ensures width { result.width ≡ self.now.pattern.width }
    {
        let mask = u128::from(self.should);
        Pattern {
            width: self.pattern.width,
            mask,
            value: self.pattern.value & mask,
        }
    }

    /// Whether each bit of the word has the value to which the item fixes it.
    pub fn holds(&self, w: u32) -> bool
        ensures { result ≡ item_holds (with_text None (flat_item self.now)) w }
    {
        self.fixed().holds(u128::from(w >> self.start))
    }
}
