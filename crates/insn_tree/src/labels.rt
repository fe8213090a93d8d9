//! Labels of paths by the names of the nodes that they end at.

ghost use Rattle.std.specs.Prelude.{◌≡◌, ◌<◌, ◌^◌, ℕ, List, All, IfOk, find, length, map, Some, None, if◌then◌else◌};
ghost use Rattle.std.specs.List.{range_with_len};
ghost use Rattle.insn_tree.specs.Trees.{number_of, label_text};
ghost use Rattle.insn_tree.specs.Labels.{has_flat_label, flat_label};

use crate::label_ref::LabelRef;
use crate::label_table::LabelTable;
use crate::memory::NoMemory;
use mrs_names::{NameId, Names};
use std::alloc::Global;

/// The label of path `number`, whose name that is, and which other paths have where it `is_shared`.
pub(crate) fn label_of<'a>(
    names: &'a Names,
    name: NameId,
    is_shared: bool,
    number: u32,
) -> LabelRef<'a>
    requires { name.0 < length names.now }
    ensures text { label_text result ≡ flat_label names.now name.0 is_shared number }
    ensures number { result.number ≡ (if is_shared then Some number else None) }
{
    LabelRef {
        name: names.text(name),
        number: if is_shared { Some(number) } else { None },
    }
}

/// A label's text.
fn printed(alloc: Global, label: LabelRef<'_>) -> Result<Vec<u8>, NoMemory>
    ensures { IfOk result (λ text. text.items ≡ label_text label.entry) }
{
    let mut text = Vec::new(alloc);
    label.push_onto(&mut text)?;
    Ok(text)
}

/// The labels of the paths of these names, which are `shared` where other paths have them.
pub(crate) fn find_labels(
    alloc: Global,
    names: &Names,
    path_names: &[NameId],
    shared: &[bool],
) -> Result<LabelTable, NoMemory>
    requires few { length path_names.now < 2 ^ 32 }
    requires lengths { length shared.now ≡ length path_names.now }
    requires held { All (λ name. name.0 < length names.now) path_names.now }
    ensures { IfOk result (λ table. (text : List ℕ) → number_of text table ≡ find (has_flat_label names.now (map (λ name. name.0) path_names.now) shared.now text) (range_with_len 0 (length path_names.now))) }
{
    let mut labels = LabelTable::new(alloc);
    for k in 0..path_names.len() {
        let label = label_of(names, path_names[k], shared[k], k as u32);
        labels.put(printed(alloc, label)?, k as u32)?;
    }
    Ok(labels)
}
