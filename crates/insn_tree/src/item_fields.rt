//! The fields that are visible at a node, from the deepest item up.

ghost use Rattle.std.specs.Prelude.{◌≡◌, OnOk, map};
ghost use Rattle.std.specs.List.{list_any};
ghost use Rattle.mrs_arena.specs.Views.{flat_item};
ghost use Rattle.insn_tree.specs.Upward.{onto};
ghost use Rattle.insn_tree.specs.Visible.{has_field_name, with_field};
ghost use Rattle.insn_tree.specs.Views.{flat_field};

use crate::field_range::FieldRange;
use crate::memory::NoMemory;
use bit_pattern::Range;
use mrs_arena::Item;
use mrs_names::NameId;

/// Whether one of the fields has that name.
fn is_taken(fields: &[FieldRange], name: NameId) -> bool
    ensures { result ≡ list_any (has_field_name name.0) (map flat_field fields.now) }
{
    for field in fields {
        if field.name == name {
            return true;
        }
    }
    false
}

/// Puts an item's field behind those of the deeper items, unless it has no name or one of those has it.
fn push_field(deeper: &mut Vec<FieldRange>, it: &Item) -> Result<(), NoMemory>
    ensures { OnOk result (map flat_field deeper.new.items ≡ with_field (flat_item it.now) (map flat_field deeper.old.items)) }
{
    let Some(name) = it.name else {
        return Ok(());
    };
    if is_taken(deeper, name) {
        return Ok(());
    }
    deeper.push(FieldRange {
        name,
        range: Range {
            start: it.start,
            width: it.pattern.width,
        },
    })?;
    Ok(())
}

/// Puts the fields of a node's items behind those of the deeper ones, the last item first.
pub(crate) fn push_fields(deeper: &mut Vec<FieldRange>, items: &[Item]) -> Result<(), NoMemory>
    ensures { OnOk result (map flat_field deeper.new.items ≡ onto with_field (map flat_item items.now) (map flat_field deeper.old.items)) }
{
    'items: for i in (0..items.len()).rev() {
        push_field(deeper, &items[i])?;
    }
    Ok(())
}
