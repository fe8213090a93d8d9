//! Finds the end of each node's subtree.

ghost use Rattle.std.specs.Prelude.{◌≡◌, ◌+◌, ◌<◌, ◌^◌, length, map, option_map};
ghost use Rattle.mrs_arena.specs.Paths.{is_outside, end_of};
ghost use Rattle.mrs_arena.specs.Inside.{parent_of, without_end, HasEnds};

use crate::node::StoredNode;
use crate::node_id::NodeId;

/// Fills in the number after each node's subtree, from the last node back, in as many steps as there are nodes.
pub(crate) fn fill_ends(nodes: &mut [StoredNode])
    requires { length nodes.old < 2 ^ 32 }
    ensures same { map without_end nodes.new ≡ map without_end nodes.old }
    ensures ends { HasEnds nodes.new 0 }
{
    'nodes: for n in (0..nodes.len()).rev() {
        let end = end_after(nodes, n);
        let node = &mut nodes[n];
        node.end = end;
    }
}

/// The number after a node's subtree, where those of the nodes behind it are known: the subtrees below it follow one another.
fn end_after(nodes: &[StoredNode], n: usize) -> u32
    requires few { length nodes.now < 2 ^ 32 }
    requires within { n < length nodes.now }
    requires behind { HasEnds nodes.now (n + 1) }
    ensures { result ≡ end_of (map parent_of nodes.now) n }
{
    let mut end = n + 1;
    'below: while end < nodes.len() && !is_outside(nodes[end].parent, n) {
        end = nodes[end].end as usize;
    }
    end as u32
}

/// Whether a node whose parent that is stands outside the nodes from `n` on.
fn is_outside(parent: Option<NodeId>, n: usize) -> bool
    ensures { result ≡ is_outside n (option_map (λ p. p.0) parent) }
{
    match parent {
        Some(parent) => (parent.0 as usize) < n,
        None => true,
    }
}
