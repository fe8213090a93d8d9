//! The leaves at which a word is found, one after another.

ghost use Rattle.std.specs.Prelude.{◌≡◌, List};
ghost use Rattle.ast_eval.specs.Views.{truth_of};
ghost use Rattle.ast_eval.specs.declared.kleene.Truth.{Truth};
ghost use Rattle.insn_tree.specs.declared.leaf_id.LeafId.{LeafId};
ghost use Rattle.insn_decode.specs.Left.{with_item, before_others};

use crate::judging::verdict_uncounted;
use crate::member::Member;
use ast_eval::{Config, Truth};
use insn_tree::{LeafId, Tree};
use std::marker::Model;

/// The leaves at which a word is found, each with its verdict, `Yes` or `Open`, in order. It takes no memory.
///
/// A clause sees those that are left.
#[derive(Drop)]
pub struct Candidates<'a> {
    tree: &'a Tree,
    config: &'a Config,
    members: &'a [Member],
    at: usize,
    w: u32,
}

impl<'a> Model for Candidates<'a> {
    ghost use Rattle.std.specs.Prelude.{List, All, map, drop};
    ghost use Rattle.ast_eval.specs.declared.kleene.Truth.{Truth};
    ghost use Rattle.insn_tree.specs.declared.leaf_id.LeafId.{LeafId};

    ghost Value = { List (LeafId × Truth) };

    ghost use Rattle.insn_decode.specs.Members.{encoding_of};
    ghost use Rattle.insn_decode.specs.Judged.{IsMemberOf};
    ghost use Rattle.insn_decode.specs.Left.{found_left};

    ghost view = { λ c. found_left c.tree.now c.config.now c.w (map encoding_of (drop c.at c.members.now)) };

    ghost invariant = { λ c. All (IsMemberOf c.tree.now) (map encoding_of c.members.now) };
}

impl<'a> Candidates<'a> {
    ghost use Rattle.std.specs.Prelude.{◌≡◌, All, map};
    ghost use Rattle.insn_decode.specs.Members.{encoding_of};
    ghost use Rattle.insn_decode.specs.Judged.{IsMemberOf};
    ghost use Rattle.insn_decode.specs.Left.{found_left};

    /// Those among these leaves of the tree.
    pub(crate) fn new(
        tree: &'a Tree,
        config: &'a Config,
        members: &'a [Member],
        w: u32,
    ) -> Candidates<'a>
        requires { All (IsMemberOf tree.now) (map encoding_of members.now) }
        ensures { result ≡ found_left tree.now config.now w (map encoding_of members.now) }
    {
        Candidates {
            tree,
            config,
            members,
            at: 0,
            w,
        }
    }
}

impl<'a> Iterator for Candidates<'a> {
    ghost use Rattle.std.specs.Iterator.{YieldsFirst, item_count};

    type Item = (LeafId, Truth);

    ghost next_gives = { YieldsFirst (λ s. s) };

    ghost remaining = { item_count (λ s. s) };

    fn next(&mut self) -> Option<(LeafId, Truth)> {
        while self.at < self.members.len() {
            let member = self.members[self.at];
            self.at += 1;
            let verdict = verdict_uncounted(self.tree, self.config, &member, self.w);
            if let Some(found) = unless_excluded(member.leaf, verdict) {
                return Some(found);
            }
        }
        None
    }
}

/// A leaf with its verdict, unless that is `No`.
fn unless_excluded(leaf: LeafId, verdict: Truth) -> Option<(LeafId, Truth)>
    ensures { (others : List (LeafId × Truth)) → with_item leaf.0 (truth_of verdict) others ≡ before_others result others }
{
    match verdict {
        Truth::No => None,
        Truth::Yes | Truth::Open => Some((leaf, verdict)),
    }
}
