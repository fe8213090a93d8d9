//! Fields, rests and words, by the paths of a tree, be they those of leaves or of aliases. The path of an alias has the
//! alias's own items and its condition; the preference plays no part.

ghost use Rattle.std.specs.Prelude.{◌≡◌, ◌<◌, ◌≤◌, ◌+◌, ◌↔◌, ℕ, List, All, length, map};
ghost use Rattle.spec_encoding.specs.Refusal.{with_node};
ghost use Rattle.spec_encoding.specs.PathLayout as path;
ghost use Rattle.spec_encoding.specs.Encoding.{encoding, Encodes};
ghost use Rattle.mrs_names.specs.Texts.{AreNames};
ghost use Rattle.mrs_arena.specs.Placed.{text_of, path_to, AreHeld};
ghost use Rattle.ast_eval.specs.Choices.{configuration_of};
ghost use Rattle.insn_tree.specs.PathIds.{IsPathOf, path_of, end_of};
ghost use Rattle.insn_tree.specs.Verdicts.{AreHeldBy};
ghost use Rattle.insn_encode.specs.Shown.{field_by};
ghost use Rattle.insn_encode.specs.Held.{pair_by, answer_by};
ghost use Rattle.insn_encode.specs.Along.{node_along};

use crate::fault::EncodeFault;
use crate::node_encoding::encode_to;
use crate::shown_fields::Shown;
use ast_eval::Config;
use insn_tree::{PathId, Tree};
use mrs_names::NameId;

/// The shown fields of a path: the visible ones with a bit that no item on it fixes, in their order.
pub fn shown_along(tree: &Tree, p: PathId) -> Shown<'_>
    requires { IsPathOf tree.now p }
    ensures fields { (names : List (List ℕ)) → AreNames names → AreHeld names tree.now.nodes
        → map (field_by names) result ≡ path.shown (path_of names tree.now p) }
    ensures within { All (λ f. f.start + f.width ≤ 32) result }
    ensures held { (names : List (List ℕ)) → AreHeld names tree.now.nodes → All (λ f. f.name < length names) result }
{
    Shown::new(tree.path_fields(p), tree.path_layout(p))
}

/// The rest of a word along a path: the word's free unnamed bits against their defaults, and 0 elsewhere.
pub fn rest_along(tree: &Tree, p: PathId, w: u32) -> u32
    requires { IsPathOf tree.now p }
    ensures { (names : List (List ℕ)) → AreNames names → AreHeld names tree.now.nodes
        → result ≡ path.rest_of (path_of names tree.now p) w }
{
    tree.path_layout(p).rest_of(w)
}

/// The one word at which each shown field of a path has the value that it is given in a pair, the rest is this one, and the
/// path's verdict is not No; or the first refusal, in the order of the faults.
///
/// At most 256 pairs. It takes no memory, and stack by the depth of the tree.
pub fn encode_along(
    tree: &Tree,
    p: PathId,
    pairs: &[(NameId, u32)],
    rest: u32,
    config: &Config,
) -> Result<u32, EncodeFault>
    requires path { IsPathOf tree.now p }
    requires few { length pairs.now ≤ 256 }
    ensures answer { (names : List (List ℕ)) → AreHeldBy names tree.now.nodes config.now → All (λ pair. pair.0.0 < length names) pairs.now
        → answer_by names result ≡ with_node (node_along tree.now.nodes p) (encoding (path_of names tree.now p) (configuration_of (text_of names) config.now) (map (pair_by names) pairs.now) rest) }

    // the word is answered exactly where it is encoded
    ensures word { (names : List (List ℕ)) → AreHeldBy names tree.now.nodes config.now → All (λ pair. pair.0.0 < length names) pairs.now → (w : ℕ)
        → (result ≡ Ok w) ↔ Encodes (path_of names tree.now p) (configuration_of (text_of names) config.now) (map (pair_by names) pairs.now) rest w }

    // the path is that to its node
    ensures path { (names : List (List ℕ)) → path_of names tree.now p ≡ path_to names tree.now.nodes (end_of tree.now.nodes p) }
{
    encode_to(
        tree.arena(),
        tree.path_node(p),
        tree.path_fields(p),
        &tree.path_layout(p),
        pairs,
        rest,
        config,
    )
}
