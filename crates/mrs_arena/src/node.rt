//! Nodes as an arena keeps them.

use crate::expr_id::ExprId;
use crate::kind::Kind;
use crate::node_id::NodeId;
use mrs_names::NameId;

/// A node; its items are those from place `from` up to place `to` of the arena's items.
#[derive(Clone, Copy)]
pub(crate) struct StoredNode {
    pub kind: Kind,
    pub name: NameId,
    pub parent: Option<NodeId>,
    pub condition: Option<ExprId>,
    pub preferred: Option<ExprId>,
    pub from: usize,
    pub to: usize,
    /// How many named items the node and those above it have.
    pub named: u32,
    /// The number after the node's subtree, once the arena is closed.
    pub end: u32,
}
