//! The names of the nodes that paths end at.

ghost use Rattle.std.specs.Prelude.{◌≡◌, ◌<◌, All, IfOk, length, map};
ghost use Rattle.insn_tree.specs.Ends.{name_at};

use crate::memory::NoMemory;
use mrs_arena::{Arena, NodeId};
use mrs_names::NameId;
use std::alloc::Global;

/// The name of a node.
fn name_of(arena: &Arena, n: NodeId) -> NameId
    requires { n.0 < length arena.now.nodes }
    ensures { result.0 ≡ name_at arena.now.nodes n.0 }
{
    arena.node(n).name()
}

/// The names of the nodes that paths end at.
pub(crate) fn path_names(
    alloc: Global,
    arena: &Arena,
    ends: &[NodeId],
) -> Result<Vec<NameId>, NoMemory>
    requires { All (λ n. n.0 < length arena.now.nodes) ends.now }
    ensures { IfOk result (λ names. map (λ name. name.0) names.items ≡ map (λ n. name_at arena.now.nodes n.0) ends.now) }
{
    let mut names = Vec::with_capacity(alloc, ends.len())?;
    for end in ends {
        names.push(name_of(arena, *end))?;
    }
    Ok(names)
}
