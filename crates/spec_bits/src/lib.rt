//! Definitions of bits, patterns of bits, their texts, and the items of an instruction's encoding.
//!
//! Its `specs/` says what these words mean, and its `proofs/` have the laws that readers cite.
#![tactic(auto)]

ghost use Rattle.spec_bits.specs.Item.{ItemsHoldByBits};

/// A law on items: one holds at a word exactly where each bit that it fixes has the value to which it fixes it.
pub fn items_hold_by_bits()
    ensures { ItemsHoldByBits }
{}
