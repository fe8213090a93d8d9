//! The verdicts of the leaves in a bucket.

ghost use Rattle.std.specs.Prelude.{◌≡◌, ◌<◌, ◌≤◌, ◌+◌, ℕ, List, All, length, map};
ghost use Rattle.spec_decode.specs.Bucket.{found_among};
ghost use Rattle.ast_eval.specs.Views.{truth_of};
ghost use Rattle.mrs_arena.specs.Placed.{text_of};
ghost use Rattle.ast_eval.specs.Choices.{configuration_of};
ghost use Rattle.insn_tree.specs.Trees.{tree_paths};
ghost use Rattle.insn_decode.specs.Members.{encoding_of};
ghost use Rattle.insn_tree.specs.OwnTexts.{leaf_verdict};
ghost use Rattle.insn_tree.specs.Verdicts.{AreHeldBy, IsVerdictOf};
ghost use Rattle.insn_decode.specs.Judged.{IsFound, IsMemberOf};

use crate::found::Found;
use crate::member::Member;
use ast_eval::{Config, Truth};
use insn_tree::Tree;
use std::marker::Brand;
use std::sync::ledger::{Blank, Ledger};
use step_count::Steps;

/// The verdict of a leaf on a word. A step is a look at its conditions, and none is taken where the bits that it fixes differ.
pub(crate) fn verdict_of<L: Ledger>(
    tree: &Tree,
    config: &Config,
    member: &Member,
    w: u32,
    steps: &mut Steps<L>,
) -> Truth
    requires { IsMemberOf tree.now (encoding_of member.now) }
    ensures verdict { IsVerdictOf tree.now (encoding_of member.now).leaf config.now w (truth_of result) }
    ensures own { truth_of result ≡ leaf_verdict tree.now config.now w (encoding_of member.now).leaf }
    ensures cost { steps.new ≤ steps.old + 1 }
{
    if !member.holds(w) {
        return Truth::No;
    }
    tree.conditions_truth(member.leaf, w, config, steps)
}

/// The verdict of a leaf on a word, with steps that are counted for nobody.
fn verdict_from<L: Ledger>(
    tree: &Tree,
    config: &Config,
    member: &Member,
    w: u32,
    blank: Blank,
) -> Truth
    requires member { IsMemberOf tree.now (encoding_of member.now) }
    requires name { blank.name ≡ L.name }
    requires parts { blank.parts ≡ L.parts }
    requires some { 0 < L.parts }
    ensures { truth_of result ≡ leaf_verdict tree.now config.now w (encoding_of member.now).leaf }
{
    verdict_of(tree, config, member, w, &mut Steps::<L>::new(blank))
}

/// The verdict of a leaf on a word. No steps are counted.
pub(crate) fn verdict_uncounted(tree: &Tree, config: &Config, member: &Member, w: u32) -> Truth
    requires { IsMemberOf tree.now (encoding_of member.now) }
    ensures { truth_of result ≡ leaf_verdict tree.now config.now w (encoding_of member.now).leaf }
{
    verdict_from::<Brand>(tree, config, member, w, Blank::new(1))
}

/// Which of these leaves a word is found at. A step is a look at the conditions of a leaf.
pub(crate) fn found_among<L: Ledger>(
    tree: &Tree,
    config: &Config,
    members: &[Member],
    w: u32,
    steps: &mut Steps<L>,
) -> Found
    requires { All (IsMemberOf tree.now) (map encoding_of members.now) }
    ensures found { (names : List (List ℕ)) → AreHeldBy names tree.now.nodes config.now → IsFound result (found_among (map encoding_of members.now) (tree_paths names tree.now) (configuration_of (text_of names) config.now) w) }
    ensures cost { steps.new ≤ steps.old + length members.now }
{
    let mut found = Found::Nothing;
    for member in members {
        let verdict = verdict_of(tree, config, member, w, steps);
        found = found.with(member.leaf, verdict);
    }
    found
}
