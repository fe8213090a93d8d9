//! Which leaves have a condition on their path.

ghost use Rattle.std.specs.Prelude.{◌≡◌, ◌<◌, All, IfOk, length, map};
ghost use Rattle.insn_tree.specs.Conditions.{is_conditioned};

use crate::memory::NoMemory;
use mrs_arena::{Arena, NodeId};
use std::alloc::Global;

/// Whether a node or one above it has a condition.
fn has_conditions(arena: &Arena, n: NodeId) -> bool
    requires { n.0 < length arena.now.nodes }
    ensures { result ≡ is_conditioned arena.now.nodes n.0 }
{
    for above in arena.path(n) {
        if arena.node(above).condition().is_some() {
            return true;
        }
    }
    false
}

/// For each leaf, whether a node on its path has a condition.
pub(crate) fn conditioned_leaves(
    alloc: Global,
    arena: &Arena,
    leaves: &[NodeId],
) -> Result<Vec<bool>, NoMemory>
    requires { All (λ n. n.0 < length arena.now.nodes) leaves.now }
    ensures { IfOk result (λ v. v.items ≡ map (λ n. is_conditioned arena.now.nodes n.0) leaves.now) }
{
    let mut conditioned = Vec::with_capacity(alloc, leaves.len())?;
    for leaf in leaves {
        conditioned.push(has_conditions(arena, *leaf))?;
    }
    Ok(conditioned)
}
