//! The fields that are visible at the end of each path.

ghost use Rattle.std.specs.Prelude.{◌≡◌, ◌<◌, All, IfOk, length, map};
ghost use Rattle.insn_tree.specs.Visible.{fields_at};
ghost use Rattle.insn_tree.specs.Views.{flat_field};

use crate::field_range::FieldRange;
use crate::field_table::FieldTable;
use crate::item_fields::push_fields;
use crate::memory::NoMemory;
use mrs_arena::{Arena, NodeId};
use std::alloc::Global;

/// The fields that are visible at a node, from the root down.
fn visible_fields(alloc: Global, arena: &Arena, n: NodeId) -> Result<Vec<FieldRange>, NoMemory>
    requires { n.0 < length arena.now.nodes }
    ensures { IfOk result (λ fields. map flat_field fields.items ≡ fields_at arena.now.nodes n.0) }
{
    let mut fields = Vec::new(alloc);
    for above in arena.path(n) {
        push_fields(&mut fields, arena.node(above).items())?;
    }
    fields.reverse();
    Ok(fields)
}

/// The fields that are visible at the end of each path.
pub(crate) fn path_fields(
    alloc: Global,
    arena: &Arena,
    ends: &[NodeId],
) -> Result<FieldTable, NoMemory>
    requires { All (λ n. n.0 < length arena.now.nodes) ends.now }
    ensures { IfOk result (λ table. table ≡ map (λ n. fields_at arena.now.nodes n.0) ends.now) }
{
    let mut table = FieldTable::new(alloc);
    for end in ends {
        let fields = visible_fields(alloc, arena, *end)?;
        table.push(&fields)?;
    }
    Ok(table)
}
