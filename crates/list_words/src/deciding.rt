//! The search for the leaves of a word, by a caller that counts no steps.

ghost use Rattle.std.specs.Prelude.{◌≡◌, ◌<◌, ℕ, List};
ghost use Rattle.spec_decode.specs.Found.{found};
ghost use Rattle.mrs_arena.specs.Placed.{text_of};
ghost use Rattle.ast_eval.specs.Choices.{configuration_of};
ghost use Rattle.insn_tree.specs.Trees.{tree_paths};
ghost use Rattle.insn_tree.specs.Verdicts.{AreHeldBy};
ghost use Rattle.insn_decode.specs.Deciders.{IsDeciderOf};
ghost use Rattle.insn_decode.specs.Judged.{IsFound};

use ast_eval::Config;
use insn_decode::{Decider, Found};
use insn_tree::Tree;
use std::marker::Brand;
use std::sync::ledger::{Blank, Ledger};
use step_count::Steps;

fn decide_from<L: Ledger>(
    decider: &Decider,
    tree: &Tree,
    w: u32,
    config: &Config,
    blank: Blank,
) -> Found
    requires decider { IsDeciderOf tree.now decider.now }
    requires name { blank.name ≡ L.name }
    requires parts { blank.parts ≡ L.parts }
    requires some { 0 < L.parts }
    ensures { (names : List (List ℕ)) → AreHeldBy names tree.now.nodes config.now → IsFound result (found (tree_paths names tree.now) (configuration_of (text_of names) config.now) w) }
{
    decider.decide(tree, w, config, &mut Steps::<L>::new(blank))
}

/// Which leaves the word `w` is found at. The decider was made from that tree.
pub(crate) fn decide(decider: &Decider, tree: &Tree, w: u32, config: &Config) -> Found
    requires { IsDeciderOf tree.now decider.now }
    ensures { (names : List (List ℕ)) → AreHeldBy names tree.now.nodes config.now → IsFound result (found (tree_paths names tree.now) (configuration_of (text_of names) config.now) w) }
{
    decide_from::<Brand>(decider, tree, w, config, Blank::new(1))
}
