//! Labels of leaves, as text.
ghost use Rattle.std.specs.Prelude.{◌≡◌, ◌++◌, ◌<◌, length, OnOk};
ghost use Rattle.spec_instructions.specs.Paths.{label};
ghost use Rattle.insn_tree.specs.Trees.{IsOf, tree_paths};

use insn_tree::{LeafId, Tree};
use mrs_names::Names;
use std::alloc::AllocError;

/// Appends the label of a leaf. The names are those that the tree was made with.
pub(crate) fn push_label(
    out: &mut Vec<u8>,
    tree: &Tree,
    names: &Names,
    leaf: LeafId,
) -> Result<(), AllocError>
    requires names { IsOf names.now tree.now }
    requires leaf { leaf.0 < length (tree_paths names.now tree.now) }
    ensures { OnOk result (out.new.items ≡ out.old.items ++ label (tree_paths names.now tree.now) leaf.0) }
{
    tree.label(leaf, names).push_onto(out)
}
