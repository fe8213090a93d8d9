//! One node of an arena.

use crate::expr_id::ExprId;
use crate::item::Item;
use crate::kind::Kind;
use crate::node::StoredNode;
use crate::node_id::NodeId;
use mrs_names::NameId;
use std::marker::Model;

/// One node of an arena: what was put, and where its subtree ends.
#[derive(Drop)]
pub struct NodeRef<'a> {
    node: &'a StoredNode,
    items: &'a [Item],
}

impl<'a> Model for NodeRef<'a> {
    ghost use Rattle.mrs_arena.specs.Flat.{ArenaNode};
    ghost use Rattle.mrs_arena.specs.Inside.{arena_node};

    ghost Value = { ArenaNode };

    ghost view = { λ n. arena_node n.items.now n.node.now };
}

impl<'a> NodeRef<'a> {
    ghost use Rattle.std.specs.Prelude.{◌≡◌, map, option_map};
    ghost use Rattle.mrs_arena.specs.Views.{flat_item};
    ghost use Rattle.mrs_arena.specs.Inside.{arena_node};

    pub(crate) fn new(node: &'a StoredNode, items: &'a [Item]) -> NodeRef<'a>
        ensures { result ≡ arena_node items.now node.now }
    {
        NodeRef { node, items }
    }

    /// What the node is.
    pub fn kind(&self) -> Kind
        ensures { result ≡ self.now.kind }
    {
        self.node.kind
    }

    /// The number of the node's name.
    pub fn name(&self) -> NameId
        ensures { result.0 ≡ self.now.name }
    {
        self.node.name
    }

    /// The items in the order in which they were put.
    pub fn items(&self) -> &'a [Item]
        ensures { map flat_item result.now ≡ self.now.items }
    {
        self.items
    }

    /// The number of the condition, if it has one.
    pub fn condition(&self) -> Option<ExprId>
        ensures { option_map (λ e. e.0) result ≡ self.now.condition }
    {
        self.node.condition
    }

    /// The number of the preference, if it has one.
    pub fn preferred(&self) -> Option<ExprId>
        ensures { option_map (λ e. e.0) result ≡ self.now.preferred }
    {
        self.node.preferred
    }

    /// The node above, which the root has not.
    pub fn parent(&self) -> Option<NodeId>
        ensures { option_map (λ p. p.0) result ≡ self.now.parent }
    {
        self.node.parent
    }

    /// The number after the node's subtree: that of the first node behind it that is not below it, or the count of nodes.
    pub fn end(&self) -> u32
        ensures { result ≡ self.now.end }
    {
        self.node.end
    }
}
