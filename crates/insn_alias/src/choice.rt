//! The preferred alias of a leaf at a word.

ghost use Rattle.std.specs.Prelude.{◌≡◌, ◌<◌, ℕ, List, IfSome, length, option_map};
ghost use Rattle.spec_decode.specs.Preferred.{preferred};
ghost use Rattle.mrs_arena.specs.Placed.{text_of, leaves_of, aliases_of};
ghost use Rattle.ast_eval.specs.Choices.{configuration_of};
ghost use Rattle.insn_tree.specs.Trees.{tree_aliases};
ghost use Rattle.insn_tree.specs.Verdicts.{AreHeldBy};

use crate::preference::is_preferable;
use ast_eval::Config;
use insn_tree::{AliasId, LeafId, Tree};

/// The first alias of the leaf whose items hold at the word `w` and whose condition and preference are both Yes there, under
/// the fields that are visible at the alias; `None` exactly where there is none. An alias without a preference is never it.
///
/// The tree, the configuration and the names by which they are read are of one release. It takes no memory.
pub fn preferred(tree: &Tree, l: LeafId, w: u32, config: &Config) -> Option<AliasId>
    requires { l.0 < length (leaves_of tree.now.nodes) }
    ensures preferred { (names : List (List ℕ)) → AreHeldBy names tree.now.nodes config.now
        → option_map (λ a. a.0) result ≡ preferred (tree_aliases names tree.now) l.0 (configuration_of (text_of names) config.now) w }
    ensures within { IfSome result (λ a. a.0 < length (aliases_of tree.now.nodes)) }
{
    let mut next = tree.first_alias(l);
    'aliases: loop {
        match next {
            None => return None,
            Some(a) => {
                if is_preferable(tree, a, w, config) {
                    return Some(a);
                }
                next = tree.next_alias(a);
            }
        }
    }
}
