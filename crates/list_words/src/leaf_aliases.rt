//! The lines of the aliases of a leaf.
ghost use Rattle.std.specs.Prelude.{◌≡◌, ◌++◌, ◌<◌, length, OnOk};
ghost use Rattle.spec_lines.specs.LeafAliases.{alias_line, alias_lines};
ghost use Rattle.mrs_arena.specs.Placed.{aliases_of};
ghost use Rattle.insn_tree.specs.Trees.{IsOf, tree_paths, tree_aliases};

use insn_tree::{AliasId, LeafId, Tree};
use mrs_names::Names;
use std::alloc::AllocError;

/// Appends the line of an alias.
fn push_alias_line(
    out: &mut Vec<u8>,
    tree: &Tree,
    names: &Names,
    alias: AliasId,
) -> Result<(), AllocError>
    requires names { IsOf names.now tree.now }
    requires alias { alias.0 < length (aliases_of tree.now.nodes) }
    ensures { OnOk result (out.new.items ≡ out.old.items ++ alias_line (tree_aliases names.now tree.now) alias.0) }
{
    out.extend_from_slice(b"alias ")?;
    tree.alias_label(alias, names).push_onto(out)?;
    out.push(b'\n')?;
    Ok(())
}

/// Appends the lines of the aliases of a leaf, in their order.
pub(crate) fn push_leaf_aliases(
    out: &mut Vec<u8>,
    tree: &Tree,
    names: &Names,
    leaf: LeafId,
) -> Result<(), AllocError>
    requires names { IsOf names.now tree.now }
    requires leaf { leaf.0 < length (tree_paths names.now tree.now) }
    ensures { OnOk result (out.new.items ≡ out.old.items ++ alias_lines (tree_aliases names.now tree.now) leaf.0) }
{
    let mut next = tree.first_alias(leaf);
    'aliases: while let Some(alias) = next {
        push_alias_line(out, tree, names, alias)?;
        next = tree.next_alias(alias);
    }
    Ok(())
}
