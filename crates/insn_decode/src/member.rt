//! Leaves with the bits that their paths fix.

ghost use Rattle.std.specs.Prelude.{◌≡◌, IfOk, bit_and, map};

use crate::bits::bit;
use insn_tree::{LeafId, NoMemory};
use std::alloc::Global;

/// A leaf, and the bits of the word that its path fixes: `mask` has these bits, and `value` those that are fixed to 1.
#[derive(Clone, Copy)]
pub(crate) struct Member {
    pub leaf: LeafId,
    pub mask: u32,
    pub value: u32,
    pub ghost value_in_mask: { bit_and value mask ≡ value },
}

impl Member {
    ghost use Rattle.std.specs.Prelude.{◌<◌};
    ghost use Rattle.spec_bits.specs.Pattern.{pattern_holds};
    ghost use Rattle.spec_decode.specs.Bucket.{is_fixed, fixes_to};
    ghost use Rattle.insn_decode.specs.Members.{encoding_of};

    /// Whether the leaf fixes bit `i`.
    #[tactic(auto, using(crate::proofs::MemberLaws::member_fixed))]
    pub(crate) fn is_fixed(&self, i: u8) -> bool
        requires { i < 32 }
        ensures { result ≡ is_fixed i (encoding_of self.now) }
    {
        bit(self.mask, i) == 1
    }

    /// Whether the leaf fixes bit `i` to `v`.
    #[tactic(auto, using(crate::proofs::MemberLaws::member_fixes))]
    pub(crate) fn fixes_to(&self, i: u8, v: u32) -> bool
        requires { i < 32 }
        ensures { result ≡ fixes_to i v (encoding_of self.now) }
    {
        bit(self.mask, i) == 1 && bit(self.value, i) == v
    }

    /// Whether the word has all bits that the leaf fixes.
    #[tactic(auto, using(crate::proofs::MemberLaws::member_holds))]
    pub(crate) fn holds(&self, w: u32) -> bool
        ensures { result ≡ pattern_holds (encoding_of self.now).digits w }
    {
        w & self.mask == self.value
    }
}

/// The leaves of these, in order.
pub(crate) fn leaves_of(alloc: Global, members: &[Member]) -> Result<Vec<LeafId>, NoMemory>
    ensures { IfOk result (λ leaves. map (λ l. l.0) leaves.items ≡ map (λ m. m.leaf.0) members.now) }
{
    let mut leaves = Vec::with_capacity(alloc, members.len())?;
    for member in members {
        leaves.push(member.leaf)?;
    }
    Ok(leaves)
}
