//! Finds the leaves among the nodes.

ghost use Rattle.std.specs.Prelude.{◌≡◌, IfOk, length, map};
ghost use Rattle.std.specs.List.{range_with_len};
ghost use Rattle.mrs_arena.specs.Formed.{AreNodes};
ghost use Rattle.mrs_arena.specs.Placed.{leaves_of};
ghost use Rattle.insn_tree.specs.Leaves.{leaves_before};

use crate::memory::NoMemory;
use mrs_arena::{Arena, NodeId};
use std::alloc::Global;

/// The nodes that are leaves, in order, and how many leaves come before each node.
#[derive(Drop)]
pub(crate) struct LeafNodes {
    pub nodes: Vec<NodeId>,
    pub before: Vec<u32>,
}

/// Finds the leaves of an arena, in one pass over its nodes.
pub(crate) fn find_leaves(alloc: Global, arena: &Arena) -> Result<LeafNodes, NoMemory>
    ensures nodes { IfOk result (λ l. map (λ n. n.0) l.nodes.items ≡ leaves_of arena.now.nodes) }
    ensures formed { AreNodes arena.now.nodes }
    ensures before { IfOk result (λ l. l.before.items ≡ map (leaves_before arena.now.nodes) (range_with_len 0 (length arena.now.nodes))) }
{
    let mut nodes = Vec::new(alloc);
    let mut before = Vec::with_capacity(alloc, arena.node_count() as usize)?;
    for n in 0..arena.node_count() {
        before.push(nodes.len() as u32)?;
        if !arena.node(NodeId(n)).kind().is_leaf() {
            continue;
        }
        nodes.push(NodeId(n))?;
    }
    Ok(LeafNodes { nodes, before })
}
