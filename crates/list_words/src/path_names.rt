//! The names along the path to a node.
ghost use Rattle.std.specs.Prelude.{◌≡◌, ◌++◌, ◌<◌, length, OnOk};
ghost use Rattle.mrs_arena.specs.Placed.{AreHeld};
ghost use Rattle.list_words.specs.Down.{names_down};

use crate::name::name_bytes;
use mrs_arena::{Arena, NodeId};
use mrs_names::Names;
use std::alloc::AllocError;

/// Appends the names of the nodes from the root down to a node, a space before each.
pub(crate) fn push_path_names(
    out: &mut Vec<u8>,
    names: &Names,
    arena: &Arena,
    n: NodeId,
) -> Result<(), AllocError>
    requires within { n.0 < length arena.now.nodes }
    requires held { AreHeld names.now arena.now.nodes }
    ensures { OnOk result (out.new.items ≡ out.old.items ++ names_down names.now arena.now.nodes n.0) }
{
    let node = arena.node(n);
    match node.parent() {
        Some(parent) => push_path_names(out, names, arena, parent)?,
        None => {}
    }
    out.push(b' ')?;
    out.extend_from_slice(name_bytes(names, node.name()))?;
    Ok(())
}
