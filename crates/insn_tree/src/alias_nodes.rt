//! Finds the aliases among the nodes, and the leaves above them.

ghost use Rattle.std.specs.Prelude.{◌≡◌, ◌<◌, IfOk, IfSome, length, map, option_map};
ghost use Rattle.std.specs.List.{range_with_len};
ghost use Rattle.mrs_arena.specs.Placed.{aliases_of};
ghost use Rattle.insn_tree.specs.Leaves.{leaves_before, leaf_above, counted_above};

use crate::leaf_id::LeafId;
use crate::memory::NoMemory;
use mrs_arena::{Arena, NodeId};
use std::alloc::Global;

/// The nodes that are aliases, in order, and the leaf above each of them.
#[derive(Drop)]
pub(crate) struct AliasNodes {
    pub nodes: Vec<NodeId>,
    pub leaves: Vec<LeafId>,
}

/// How many leaves come before a node's parent.
fn leaf_of(before: &[u32], parent: Option<NodeId>) -> LeafId
    requires { IfSome parent (λ p. p.0 < length before.now) }
    ensures { result.0 ≡ counted_above before.now (option_map (λ p. p.0) parent) }
{
    match parent {
        Some(parent) => LeafId(before[parent.0 as usize]),
        None => LeafId(0),
    }
}

/// Finds the aliases of an arena. `before` says how many leaves come before each node.
pub(crate) fn find_aliases(
    alloc: Global,
    arena: &Arena,
    before: &[u32],
) -> Result<AliasNodes, NoMemory>
    requires { before.now ≡ map (leaves_before arena.now.nodes) (range_with_len 0 (length arena.now.nodes)) }
    ensures nodes { IfOk result (λ a. map (λ n. n.0) a.nodes.items ≡ aliases_of arena.now.nodes) }
    ensures leaves { IfOk result (λ a. map (λ l. l.0) a.leaves.items ≡ map (leaf_above arena.now.nodes) (aliases_of arena.now.nodes)) }
{
    let mut nodes = Vec::new(alloc);
    let mut leaves = Vec::new(alloc);
    for n in 0..arena.node_count() {
        let node = arena.node(NodeId(n));
        if !node.kind().is_alias() {
            continue;
        }
        nodes.push(NodeId(n))?;
        leaves.push(leaf_of(before, node.parent()))?;
    }
    Ok(AliasNodes { nodes, leaves })
}
