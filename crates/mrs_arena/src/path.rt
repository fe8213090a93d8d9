//! Paths up to the root.

ghost use Rattle.std.specs.Prelude.{◌≡◌, ◌<◌, ◌≤◌, ◌^◌, ◌↔◌, length, map, option_map, slice_index_or, None, Contains, IsTrue};
ghost use Rattle.mrs_arena.specs.Paths.{ancestors, last_path, IsPreorder};
ghost use Rattle.mrs_arena.specs.Inside.{parent_of};

use crate::node::StoredNode;
use crate::node_id::NodeId;
use std::marker::Model;

/// The nodes from one up to the root. A clause sees the list of the numbers that are left.
#[derive(Drop)]
pub struct Path<'a> {
    nodes: &'a [StoredNode],
    next: Option<NodeId>,
}

impl<'a> Model for Path<'a> {
    ghost use Rattle.std.specs.Prelude.{List, ℕ, map, option_map};
    ghost use Rattle.mrs_arena.specs.Paths.{path_up, IsPreorder};
    ghost use Rattle.mrs_arena.specs.Inside.{parent_of, IsPathFrom};

    ghost Value = { List ℕ };

    ghost view = { λ p. path_up (map parent_of p.nodes.now) (option_map (λ n. n.0) p.next) };

    ghost invariant = { λ p. IsPathFrom p.nodes.now p.next };
}

impl<'a> Path<'a> {
    ghost use Rattle.std.specs.Prelude.{◌≡◌, ◌<◌, length, map};
    ghost use Rattle.mrs_arena.specs.Paths.{ancestors, IsPreorder};
    ghost use Rattle.mrs_arena.specs.Inside.{parent_of};

    pub(crate) fn new(nodes: &'a [StoredNode], n: NodeId) -> Path<'a>
        requires order { IsPreorder (map parent_of nodes.now) }
        requires within { n.0 < length nodes.now }
        ensures { result ≡ ancestors (map parent_of nodes.now) n.0 }
    {
        Path {
            nodes,
            next: Some(n),
        }
    }
}

impl<'a> Iterator for Path<'a> {
    ghost use Rattle.std.specs.Iterator.{YieldsFirstBy, item_count};

    type Item = NodeId;

    ghost next_gives = { YieldsFirstBy (λ n. n.0) (λ p. p) };

    ghost remaining = { item_count (λ p. p) };

    fn next(&mut self) -> Option<NodeId> {
        let node = self.next?;
        self.next = parent_at(self.nodes, node);
        Some(node)
    }
}

fn parent_at(nodes: &[StoredNode], n: NodeId) -> Option<NodeId>
    requires { n.0 < length nodes.now }
    ensures { option_map (λ p. p.0) result ≡ slice_index_or (map parent_of nodes.now) n.0 None }
{
    nodes[n.0 as usize].parent
}

/// Whether a node is the last one or stands above it.
pub(crate) fn is_on_last_path(nodes: &[StoredNode], node: NodeId) -> bool
    requires order { IsPreorder (map parent_of nodes.now) }
    requires few { length nodes.now ≤ 2 ^ 32 }
    ensures { IsTrue result ↔ Contains (last_path (map parent_of nodes.now)) node.0 }
{
    match nodes.len() {
        0 => false,
        count => is_on_path(nodes, count - 1, node),
    }
}

/// Whether a node is on the path of node `n`.
fn is_on_path(nodes: &[StoredNode], n: usize, node: NodeId) -> bool
    requires order { IsPreorder (map parent_of nodes.now) }
    requires few { length nodes.now ≤ 2 ^ 32 }
    requires within { n < length nodes.now }
    ensures { IsTrue result ↔ Contains (ancestors (map parent_of nodes.now) n) node.0 }
{
    for above in Path::new(nodes, NodeId(n as u32)) {
        if above == node {
            return true;
        }
    }
    false
}
