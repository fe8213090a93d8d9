//! Bits that tell leaves apart, and the leaves on either side.

ghost use Rattle.std.specs.Prelude.{◌≡◌, ◌<◌, ◌≤◌, IfOk, IfSome, Some, length, map};
ghost use Rattle.std.specs.List.{list_all, list_any};
ghost use Rattle.spec_decode.specs.Bucket.{is_fixed, fixes_to, splits, highest_split, next_bit, agreeing};
ghost use Rattle.insn_decode.specs.Members.{encoding_of};

use crate::member::Member;
use insn_tree::NoMemory;
use std::alloc::Global;

/// How many leaves a bucket may have before a further bit is looked at.
const FEW: usize = 8;

/// Whether all of these fix bit `i`.
fn all_fix(members: &[Member], i: u8) -> bool
    requires { i < 32 }
    ensures { result ≡ list_all (is_fixed i) (map encoding_of members.now) }
{
    for member in members {
        if !member.is_fixed(i) {
            return false;
        }
    }
    true
}

/// Whether one of these fixes bit `i` to `v`.
fn one_fixes(members: &[Member], i: u8, v: u32) -> bool
    requires { i < 32 }
    ensures { result ≡ list_any (fixes_to i v) (map encoding_of members.now) }
{
    for member in members {
        if member.fixes_to(i, v) {
            return true;
        }
    }
    false
}

/// Whether bit `i` splits these: all fix it, some to 0 and some to 1.
#[tactic(auto, unfolding(spec_decode::specs::Bucket::splits))]
fn splits(members: &[Member], i: u8) -> bool
    requires { i < 32 }
    ensures { result ≡ splits i (map encoding_of members.now) }
{
    all_fix(members, i) && (one_fixes(members, i, 0) && one_fixes(members, i, 1))
}

/// The highest bit of the word that splits these.
fn highest_split(members: &[Member]) -> Option<u8>
    ensures { result ≡ highest_split 32 (map encoding_of members.now) }
{
    'bits: for i in (0..32u8).rev() {
        if splits(members, i) {
            return Some(i);
        }
    }
    None
}

/// The bit that is looked at next: of more than `FEW` leaves the highest that splits them, if there is one.
#[tactic(auto, unfolding(spec_decode::specs::Bucket::next_bit))]
fn chosen_bit(members: &[Member]) -> Option<u8>
    ensures { result ≡ next_bit (map encoding_of members.now) }
{
    if members.len() <= FEW {
        None
    } else {
        highest_split(members)
    }
}

/// The bit that is looked at next, which is a bit of the word.
pub(crate) fn next_bit(members: &[Member]) -> Option<u8>
    ensures bit { result ≡ next_bit (map encoding_of members.now) }
    ensures within { IfSome result (λ i. i < 32) }
{
    chosen_bit(members)
}

/// Those of these that fix bit `i` to `v`, in order.
#[tactic(auto, unfolding(spec_decode::specs::Bucket::agreeing))]
fn agreeing(alloc: Global, members: &[Member], i: u8, v: u32) -> Result<Vec<Member>, NoMemory>
    requires { i < 32 }
    ensures { IfOk result (λ some. map encoding_of some.items ≡ agreeing i v (map encoding_of members.now)) }
{
    let mut some = Vec::new(alloc);
    for member in members {
        if !member.fixes_to(i, v) {
            continue;
        }
        some.push(*member)?;
    }
    Ok(some)
}

/// The side of these on which bit `i`, the bit that is looked at next, is `v`. The other side is not empty.
pub(crate) fn side(
    alloc: Global,
    members: &[Member],
    i: u8,
    v: u32,
) -> Result<Vec<Member>, NoMemory>
    requires bit { i < 32 }
    requires value { v ≤ 1 }
    requires next { next_bit (map encoding_of members.now) ≡ Some i }
    ensures agreeing { IfOk result (λ some. map encoding_of some.items ≡ agreeing i v (map encoding_of members.now)) }
    ensures fewer { IfOk result (λ some. length some.items < length members.now) }
{
    agreeing(alloc, members, i, v)
}
