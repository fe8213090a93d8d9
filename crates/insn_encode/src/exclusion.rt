//! Which node on a path excludes a word.

ghost use Rattle.std.specs.Prelude.{◌≡◌, ◌<◌, ℕ, List, Some, None, length, map, option_map, if◌then◌else◌};
ghost use Rattle.std.specs.List.{list_all};
ghost use Rattle.spec_bits.specs.Item.{item_holds};
ghost use Rattle.mrs_arena.specs.Flat.{with_text};
ghost use Rattle.spec_expressions.specs.Value as value;
ghost use Rattle.spec_instructions.specs.Fields.{fields};
ghost use Rattle.spec_encoding.specs.PathLayout.{is_no};
ghost use Rattle.mrs_arena.specs.Placed.{text_of, own_at, path_to};
ghost use Rattle.mrs_arena.specs.Views.{flat_item};
ghost use Rattle.ast_eval.specs.Choices.{configuration_of};
ghost use Rattle.insn_tree.specs.Verdicts.{AreHeldBy};
ghost use Rattle.insn_encode.specs.Exclusion.{excludes, first_excluding};

use ast_eval::{Config, Env, Truth, truth};
use mrs_arena::{Arena, Item, NodeId};

/// Whether all items hold at a word.
fn do_hold(items: &[Item], w: u32) -> bool
    ensures { result ≡ list_all (λ it. item_holds (with_text None it) w) (map flat_item items.now) }
{
    for it in items {
        if !it.holds(w) {
            return false;
        }
    }
    true
}

/// Whether the condition of a node is No at a word, with the fields that are visible at the node.
fn is_refused(arena: &Arena, n: NodeId, w: u32, config: &Config) -> bool
    requires { n.0 < length arena.now.nodes }
    ensures { (names : List (List ℕ)) → AreHeldBy names arena.now.nodes config.now
        → result ≡ is_no (value.truth (own_at names arena.now.nodes n.0).condition (configuration_of (text_of names) config.now) (fields (path_to names arena.now.nodes n.0)) w) }
{
    let condition = arena.node(n).condition();
    match truth(arena, condition, config, &Env::at(arena, n), w) {
        Truth::No => true,
        Truth::Yes | Truth::Open => false,
    }
}

/// The node, where it excludes a word: an item of it does not hold, or its condition is No.
fn excluding(arena: &Arena, n: NodeId, w: u32, config: &Config) -> Option<NodeId>
    requires { n.0 < length arena.now.nodes }
    ensures { (names : List (List ℕ)) → AreHeldBy names arena.now.nodes config.now
        → option_map (λ node. node.0) result ≡ (if excludes names arena.now.nodes n.0 (configuration_of (text_of names) config.now) w then Some n.0 else None) }
{
    if !do_hold(arena.node(n).items(), w) {
        return Some(n);
    }
    if is_refused(arena, n, w, config) {
        return Some(n);
    }
    None
}

/// The first node from the root on the path to a node that excludes a word.
pub(crate) fn first_excluding(arena: &Arena, n: NodeId, w: u32, config: &Config) -> Option<NodeId>
    requires { n.0 < length arena.now.nodes }
    ensures { (names : List (List ℕ)) → AreHeldBy names arena.now.nodes config.now
        → option_map (λ node. node.0) result ≡ first_excluding names arena.now.nodes n.0 (configuration_of (text_of names) config.now) w }
{
    let Some(parent) = arena.node(n).parent() else {
        return excluding(arena, n, w, config);
    };
    if let Some(first) = first_excluding(arena, parent, w, config) {
        return Some(first);
    }
    excluding(arena, n, w, config)
}
