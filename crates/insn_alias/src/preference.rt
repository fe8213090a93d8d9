//! Whether an alias may be preferred at a word.

ghost use Rattle.std.specs.Prelude.{◌≡◌, ◌<◌, ℕ, List, length};
ghost use Rattle.spec_decode.specs.Preferred.{is_yes, is_preferable};
ghost use Rattle.mrs_arena.specs.Placed.{text_of, aliases_of};
ghost use Rattle.ast_eval.specs.Choices.{configuration_of};
ghost use Rattle.ast_eval.specs.Views.{truth_of};
ghost use Rattle.insn_tree.specs.Trees.{alias_at};
ghost use Rattle.insn_tree.specs.Verdicts.{AreHeldBy};
ghost use Rattle.insn_alias.specs.Preference.{is_condition_yes, is_preference_yes, prefers_at};

use ast_eval::{Config, Env, Truth, truth};
use insn_tree::{AliasId, Tree};
use mrs_arena::{Arena, NodeId};

/// Whether that is `Yes`.
fn is_yes(t: Truth) -> bool
    ensures { result ≡ is_yes (truth_of t) }
{
    match t {
        Truth::Yes => true,
        Truth::No | Truth::Open => false,
    }
}

/// Whether the condition of a node is Yes at a word, under the fields that are visible at the node.
fn is_condition_yes(arena: &Arena, n: NodeId, w: u32, config: &Config) -> bool
    requires { n.0 < length arena.now.nodes }
    ensures { (names : List (List ℕ)) → AreHeldBy names arena.now.nodes config.now → result ≡ is_condition_yes names arena.now.nodes n.0 (configuration_of (text_of names) config.now) w }
{
    let condition = arena.node(n).condition();
    is_yes(truth(arena, condition, config, &Env::at(arena, n), w))
}

/// Whether a node has a preference that is Yes at a word, under the fields that are visible at the node.
fn is_preference_yes(arena: &Arena, n: NodeId, w: u32, config: &Config) -> bool
    requires { n.0 < length arena.now.nodes }
    ensures { (names : List (List ℕ)) → AreHeldBy names arena.now.nodes config.now → result ≡ is_preference_yes names arena.now.nodes n.0 (configuration_of (text_of names) config.now) w }
{
    let Some(preference) = arena.node(n).preferred() else {
        return false;
    };
    is_yes(truth(arena, Some(preference), config, &Env::at(arena, n), w))
}

/// Whether the condition of a node and its preference are both Yes at a word.
fn prefers_at(arena: &Arena, n: NodeId, w: u32, config: &Config) -> bool
    requires { n.0 < length arena.now.nodes }
    ensures { (names : List (List ℕ)) → AreHeldBy names arena.now.nodes config.now → result ≡ prefers_at names arena.now.nodes n.0 (configuration_of (text_of names) config.now) w }
{
    is_condition_yes(arena, n, w, config) && is_preference_yes(arena, n, w, config)
}

/// Whether an alias may be preferred at a word: its items hold, and its condition and its preference are Yes. Where an item
/// does not hold, no expression is valued.
pub(crate) fn is_preferable(tree: &Tree, a: AliasId, w: u32, config: &Config) -> bool
    requires { a.0 < length (aliases_of tree.now.nodes) }
    ensures { (names : List (List ℕ)) → AreHeldBy names tree.now.nodes config.now → result ≡ is_preferable (alias_at names tree.now a.0) (configuration_of (text_of names) config.now) w }
{
    if !tree.alias_items_hold(a, w) {
        return false;
    }
    prefers_at(tree.arena(), tree.alias_node(a), w, config)
}
