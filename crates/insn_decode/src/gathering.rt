//! The leaves of a tree with what their paths fix.

ghost use Rattle.std.specs.Prelude.{◌≡◌, ◌<◌, ◌≤◌, ◌++◌, [], ℕ, List, IfOk, OnOk, length, map};
ghost use Rattle.spec_instructions.specs.Fields.{merged};
ghost use Rattle.spec_decode.specs.Bucket.{encodings, with_encoding, AreWithinWord};
ghost use Rattle.spec_walk.specs.Limits.{node_limit};
ghost use Rattle.mrs_arena.specs.Placed.{leaves_of};
ghost use Rattle.insn_tree.specs.Trees.{tree_paths, path_at};
ghost use Rattle.insn_decode.specs.Members.{encoding_of};
ghost use Rattle.bit_pattern.specs.Views.{digits_of};

use crate::member::Member;
use bit_pattern::Pattern;
use insn_tree::{LeafId, NoMemory, Tree};
use std::alloc::Global;

/// A leaf with what its path fixes.
fn member_of(leaf: LeafId, fixed: &Pattern) -> Member
    requires { fixed.now.width ≡ 32 }
    ensures leaf { (encoding_of result).leaf ≡ leaf.0 }
    ensures digits { (encoding_of result).digits ≡ digits_of fixed.now }
{
    Member {
        leaf,
        mask: fixed.mask as u32,
        value: fixed.value as u32,
    }
}

/// Puts a leaf behind others, unless two items of its path clash.
fn push_member(members: &mut Vec<Member>, tree: &Tree, leaf: LeafId) -> Result<(), NoMemory>
    requires { leaf.0 < length (leaves_of tree.now.nodes) }
    ensures { OnOk result ((names : List (List ℕ)) → map encoding_of members.new.items ≡ map encoding_of members.old.items ++ with_encoding leaf.0 (merged (path_at names tree.now leaf.0)) []) }
{
    let Some(fixed) = tree.merged(leaf) else {
        return Ok(());
    };
    members.push(member_of(leaf, &fixed))?;
    Ok(())
}

/// The leaves of a tree, without those whose items clash, in order, with what their paths fix.
pub(crate) fn gather(alloc: Global, tree: &Tree) -> Result<Vec<Member>, NoMemory>
    ensures few { IfOk result (λ members. length members.items ≤ node_limit) }
    ensures within { OnOk result ((names : List (List ℕ)) → AreWithinWord (tree_paths names tree.now)) }
    ensures members { IfOk result (λ members. (names : List (List ℕ)) → map encoding_of members.items ≡ encodings (tree_paths names tree.now)) }
{
    let mut members = Vec::with_capacity(alloc, tree.leaves() as usize)?;
    for l in 0..tree.leaves() {
        push_member(&mut members, tree, LeafId(l))?;
    }
    Ok(members)
}
