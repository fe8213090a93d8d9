//! Fields, rests and words, by the leaves of a tree.

ghost use Rattle.std.specs.Prelude.{◌≡◌, ◌<◌, ◌≤◌, ◌+◌, ◌↔◌, ℕ, List, All, length, map};
ghost use Rattle.spec_encoding.specs.Refusal.{with_node};
ghost use Rattle.spec_encoding.specs.PathLayout as path;
ghost use Rattle.spec_encoding.specs.Encoding.{encoding, Encodes};
ghost use Rattle.mrs_names.specs.Texts.{AreNames};
ghost use Rattle.mrs_arena.specs.Placed.{text_of, leaves_of, AreHeld};
ghost use Rattle.ast_eval.specs.Choices.{configuration_of};
ghost use Rattle.insn_tree.specs.Trees.{path_at};
ghost use Rattle.insn_encode.specs.Shown.{field_by};
ghost use Rattle.insn_tree.specs.Verdicts.{AreHeldBy};
ghost use Rattle.insn_encode.specs.Held.{pair_by, answer_by, leaf_node_at};

use crate::fault::EncodeFault;
use crate::path_encoding::{encode_along, rest_along, shown_along};
use crate::shown_fields::Shown;
use ast_eval::Config;
use insn_tree::{LeafId, PathId, Tree};
use mrs_names::NameId;

/// The shown fields of a leaf: the visible ones with a bit that no item on the path fixes, in their order.
pub fn shown(tree: &Tree, l: LeafId) -> Shown<'_>
    requires { l.0 < length (leaves_of tree.now.nodes) }
    ensures fields { (names : List (List ℕ)) → AreNames names → AreHeld names tree.now.nodes
        → map (field_by names) result ≡ path.shown (path_at names tree.now l.0) }
    ensures within { All (λ f. f.start + f.width ≤ 32) result }
    ensures held { (names : List (List ℕ)) → AreHeld names tree.now.nodes → All (λ f. f.name < length names) result }
{
    shown_along(tree, PathId::Leaf(l))
}

/// The rest of a word at a leaf: the word's free unnamed bits against their defaults, and 0 elsewhere.
pub fn rest_of(tree: &Tree, l: LeafId, w: u32) -> u32
    requires { l.0 < length (leaves_of tree.now.nodes) }
    ensures { (names : List (List ℕ)) → AreNames names → AreHeld names tree.now.nodes
        → result ≡ path.rest_of (path_at names tree.now l.0) w }
{
    rest_along(tree, PathId::Leaf(l), w)
}

/// The one word at which each shown field of a leaf has the value that it is given in a pair, the rest is this one, and the
/// leaf's verdict is not No; or the first refusal, in the order of the faults.
///
/// At most 256 pairs. It takes no memory, and stack by the depth of the tree.
pub fn encode(
    tree: &Tree,
    l: LeafId,
    pairs: &[(NameId, u32)],
    rest: u32,
    config: &Config,
) -> Result<u32, EncodeFault>
    requires leaf { l.0 < length (leaves_of tree.now.nodes) }
    requires few { length pairs.now ≤ 256 }
    ensures answer { (names : List (List ℕ)) → AreHeldBy names tree.now.nodes config.now → All (λ pair. pair.0.0 < length names) pairs.now
        → answer_by names result ≡ with_node (leaf_node_at tree.now.nodes l.0) (encoding (path_at names tree.now l.0) (configuration_of (text_of names) config.now) (map (pair_by names) pairs.now) rest) }

    // the word is answered exactly where it is encoded
    ensures word { (names : List (List ℕ)) → AreHeldBy names tree.now.nodes config.now → All (λ pair. pair.0.0 < length names) pairs.now → (w : ℕ)
        → (result ≡ Ok w) ↔ Encodes (path_at names tree.now l.0) (configuration_of (text_of names) config.now) (map (pair_by names) pairs.now) rest w }
{
    encode_along(tree, PathId::Leaf(l), pairs, rest, config)
}
