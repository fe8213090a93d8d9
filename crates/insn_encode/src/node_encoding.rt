//! Words along the path to a node.

ghost use Rattle.std.specs.Prelude.{◌≡◌, ◌<◌, ◌≤◌, ◌↔◌, ℕ, List, All, length, map};
ghost use Rattle.spec_encoding.specs.Refusal.{with_node};
ghost use Rattle.spec_encoding.specs.Encoding.{encoding, Encodes};
ghost use Rattle.mrs_arena.specs.Placed.{text_of, path_to};
ghost use Rattle.ast_eval.specs.Choices.{configuration_of};
ghost use Rattle.insn_tree.specs.Verdicts.{AreHeldBy};
ghost use Rattle.insn_encode.specs.Held.{pair_by, answer_by, node_at};
ghost use Rattle.insn_encode.specs.Paths.{IsPath};

use crate::exclusion::first_excluding;
use crate::fault::EncodeFault;
use crate::placing::place;
use ast_eval::Config;
use insn_tree::FieldRange;
use mrs_arena::{Arena, NodeId};
use mrs_names::NameId;
use word_layout::WordLayout;

/// The one word that pairs and a rest encode along the path to a node, or the first refusal. At most 256 pairs.
pub(crate) fn encode_to(
    arena: &Arena,
    n: NodeId,
    fields: &[FieldRange],
    layout: &WordLayout,
    pairs: &[(NameId, u32)],
    rest: u32,
    config: &Config,
) -> Result<u32, EncodeFault>
    requires node { n.0 < length arena.now.nodes }
    requires path { IsPath arena.now.nodes n.0 fields.now layout.now }
    requires few { length pairs.now ≤ 256 }
    ensures answer { (names : List (List ℕ)) → AreHeldBy names arena.now.nodes config.now → All (λ pair. pair.0.0 < length names) pairs.now
        → answer_by names result ≡ with_node (node_at arena.now.nodes n.0) (encoding (path_to names arena.now.nodes n.0) (configuration_of (text_of names) config.now) (map (pair_by names) pairs.now) rest) }
    ensures word { (names : List (List ℕ)) → AreHeldBy names arena.now.nodes config.now → All (λ pair. pair.0.0 < length names) pairs.now → (w : ℕ)
        → (result ≡ Ok w) ↔ Encodes (path_to names arena.now.nodes n.0) (configuration_of (text_of names) config.now) (map (pair_by names) pairs.now) rest w }
{
    let word = place(fields, layout, pairs, rest)?;
    match first_excluding(arena, n, word, config) {
        Some(node) => Err(EncodeFault::Excluded { node }),
        None => Ok(word),
    }
}
