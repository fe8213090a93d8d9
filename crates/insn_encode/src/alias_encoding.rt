//! Fields, rests and words, by the aliases of a tree: those of the path that ends at the alias, its own items and its
//! condition included. The preference plays no part.

ghost use Rattle.std.specs.Prelude.{◌≡◌, ◌<◌, ◌≤◌, ◌+◌, ◌↔◌, ℕ, List, All, length, map, slice_index_or};
ghost use Rattle.spec_encoding.specs.Refusal.{with_node};
ghost use Rattle.spec_encoding.specs.PathLayout as path;
ghost use Rattle.spec_encoding.specs.Encoding.{encoding, Encodes};
ghost use Rattle.mrs_names.specs.Texts.{AreNames};
ghost use Rattle.mrs_arena.specs.Placed.{text_of, path_to, aliases_of, AreHeld};
ghost use Rattle.ast_eval.specs.Choices.{configuration_of};
ghost use Rattle.insn_tree.specs.Trees.{alias_path_at};
ghost use Rattle.insn_encode.specs.Shown.{field_by};
ghost use Rattle.insn_tree.specs.Verdicts.{AreHeldBy};
ghost use Rattle.insn_encode.specs.Held.{pair_by, answer_by, alias_node_at};

use crate::fault::EncodeFault;
use crate::path_encoding::{encode_along, rest_along, shown_along};
use crate::shown_fields::Shown;
use ast_eval::Config;
use insn_tree::{AliasId, PathId, Tree};
use mrs_names::NameId;

/// The shown fields of an alias: the visible ones with a bit that no item on its path fixes, in their order.
pub fn alias_shown(tree: &Tree, a: AliasId) -> Shown<'_>
    requires { a.0 < length (aliases_of tree.now.nodes) }
    ensures fields { (names : List (List ℕ)) → AreNames names → AreHeld names tree.now.nodes
        → map (field_by names) result ≡ path.shown (alias_path_at names tree.now a.0) }
    ensures within { All (λ f. f.start + f.width ≤ 32) result }
    ensures held { (names : List (List ℕ)) → AreHeld names tree.now.nodes → All (λ f. f.name < length names) result }
{
    shown_along(tree, PathId::Alias(a))
}

/// The rest of a word at an alias: the word's free unnamed bits against their defaults, and 0 elsewhere.
pub fn alias_rest_of(tree: &Tree, a: AliasId, w: u32) -> u32
    requires { a.0 < length (aliases_of tree.now.nodes) }
    ensures { (names : List (List ℕ)) → AreNames names → AreHeld names tree.now.nodes
        → result ≡ path.rest_of (alias_path_at names tree.now a.0) w }
{
    rest_along(tree, PathId::Alias(a), w)
}

/// The one word at which each shown field of an alias has the value that it is given in a pair, the rest is this one, and the
/// verdict of the alias's path is not No; or the first refusal, in the order of the faults.
///
/// At most 256 pairs. It takes no memory, and stack by the depth of the tree.
pub fn encode_alias(
    tree: &Tree,
    a: AliasId,
    pairs: &[(NameId, u32)],
    rest: u32,
    config: &Config,
) -> Result<u32, EncodeFault>
    requires alias { a.0 < length (aliases_of tree.now.nodes) }
    requires few { length pairs.now ≤ 256 }
    ensures answer { (names : List (List ℕ)) → AreHeldBy names tree.now.nodes config.now → All (λ pair. pair.0.0 < length names) pairs.now
        → answer_by names result ≡ with_node (alias_node_at tree.now.nodes a.0) (encoding (alias_path_at names tree.now a.0) (configuration_of (text_of names) config.now) (map (pair_by names) pairs.now) rest) }

    // the word is answered exactly where it is encoded
    ensures word { (names : List (List ℕ)) → AreHeldBy names tree.now.nodes config.now → All (λ pair. pair.0.0 < length names) pairs.now → (w : ℕ)
        → (result ≡ Ok w) ↔ Encodes (alias_path_at names tree.now a.0) (configuration_of (text_of names) config.now) (map (pair_by names) pairs.now) rest w }

    // the path of the alias is that to its node
    ensures path { (names : List (List ℕ)) → alias_path_at names tree.now a.0 ≡ path_to names tree.now.nodes (slice_index_or (aliases_of tree.now.nodes) a.0 0) }
{
    encode_along(tree, PathId::Alias(a), pairs, rest, config)
}
