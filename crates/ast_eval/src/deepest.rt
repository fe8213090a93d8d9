//! Looks for the deepest item of a name.

ghost use Rattle.std.specs.Prelude.{◌≡◌, ◌<◌, length, map, option_map};
ghost use Rattle.mrs_arena.specs.Views.{flat_item};
ghost use Rattle.ast_eval.specs.Fields.{items_to, last_named, bounds_of};
ghost use Rattle.ast_eval.specs.EnvView.{range_bounds};

use bit_pattern::Range;
use mrs_arena::{Arena, Item, NodeId};
use mrs_names::NameId;

/// The range of the deepest item of that name at a node or above.
pub(crate) fn range_at(arena: &Arena, node: NodeId, name: NameId) -> Option<Range>
    requires { node.0 < length arena.now.nodes }
    ensures { option_map range_bounds result ≡ option_map bounds_of (last_named name.0 (items_to arena.now.nodes node.0)) }
{
    for above in arena.path(node) {
        if let Some(range) = last_range(arena.node(above).items(), name) {
            return Some(range);
        }
    }
    None
}

/// The range of the last item of that name.
fn last_range(items: &[Item], name: NameId) -> Option<Range>
    ensures { option_map range_bounds result ≡ option_map bounds_of (last_named name.0 (map flat_item items.now)) }
{
    let mut found = None;
    for it in items {
        if it.is_named(name) {
            found = Some(range_of(it));
        }
    }
    found
}

/// The bits of an item.
fn range_of(it: &Item) -> Range
    ensures { range_bounds result ≡ bounds_of (flat_item it.now) }
{
    Range {
        start: it.start,
        width: it.pattern.width,
    }
}
