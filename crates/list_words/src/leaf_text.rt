//! All that is shown of a leaf.
ghost use Rattle.std.specs.Prelude.{◌≡◌, ◌∷◌, [], ◌++◌, ◌<◌, length, OnOk, flat_map, slice_index_or};
ghost use Rattle.spec_lines.specs.Leaf.{leaf_text};
ghost use Rattle.spec_lines.specs.LeafFields.{whole_leaf};
ghost use Rattle.ast_eval.specs.Choices.{Choices};
ghost use Rattle.insn_tree.specs.Trees.{IsOf, tree_paths};
ghost use Rattle.list_words.specs.Machines.{machine_of};

use crate::digits::push_bits;
use crate::label::push_label;
use crate::leaf_aliases::push_leaf_aliases;
use crate::leaf_fields::push_leaf_fields;
use crate::path_names::push_path_names;
use insn_tree::{LeafId, Tree};
use mrs_names::Names;
use std::alloc::AllocError;

/// Appends the names along the path to a leaf from the root on, a space before each.
fn push_path(out: &mut Vec<u8>, tree: &Tree, names: &Names, leaf: LeafId) -> Result<(), AllocError>
    requires names { IsOf names.now tree.now }
    requires leaf { leaf.0 < length (tree_paths names.now tree.now) }
    ensures { OnOk result (out.new.items ≡ out.old.items ++ flat_map (λ own. 32 ∷ own.name) (slice_index_or (tree_paths names.now tree.now) leaf.0 [])) }
{
    push_path_names(out, names, tree.arena(), tree.leaf_node(leaf))
}

/// Appends the label of a leaf, the names along its path, and the bits that its path fixes, a line each.
fn push_leaf_head(
    out: &mut Vec<u8>,
    tree: &Tree,
    names: &Names,
    leaf: LeafId,
) -> Result<(), AllocError>
    requires names { IsOf names.now tree.now }
    requires leaf { leaf.0 < length (tree_paths names.now tree.now) }
    ensures { OnOk result (out.new.items ≡ out.old.items ++ leaf_text (tree_paths names.now tree.now) leaf.0) }
{
    out.extend_from_slice(b"leaf ")?;
    push_label(out, tree, names, leaf)?;
    out.extend_from_slice(b"\npath")?;
    push_path(out, tree, names, leaf)?;
    out.extend_from_slice(b"\nbits ")?;
    push_bits(out, tree.merged(leaf))?;
    out.push(b'\n')?;
    Ok(())
}

/// Appends all lines that are shown of a leaf, and of each of its aliases one. The names are those that the tree was made with. Where memory runs out, a part
/// of them may be there.
pub fn push_leaf(
    out: &mut Vec<u8>,
    tree: &Tree,
    names: &Names,
    leaf: LeafId,
) -> Result<(), AllocError>
    requires names { IsOf names.now tree.now }
    requires leaf { leaf.0 < length (tree_paths names.now tree.now) }
    ensures { (config : Choices) → OnOk result (out.new.items ≡ out.old.items ++ whole_leaf (machine_of names.now tree.now config) leaf.0) }
{
    push_leaf_head(out, tree, names, leaf)?;
    push_leaf_fields(out, tree, names, leaf)?;
    push_leaf_aliases(out, tree, names, leaf)
}
