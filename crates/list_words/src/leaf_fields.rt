//! The lines of the fields of a leaf.
ghost use Rattle.std.specs.Prelude.{◌≡◌, ◌++◌, ◌<◌, length, OnOk, flat_map};
ghost use Rattle.spec_instructions.specs.Fields.{fields};
ghost use Rattle.spec_lines.specs.LeafFields.{shown_text, field_text, field_line, free_line, fields_text};
ghost use Rattle.insn_tree.specs.Trees.{IsOf, tree_paths, path_at, field_of};

use crate::decimal::push_decimal;
use crate::hex::push_hex;
use crate::name::name_bytes;
use insn_tree::{FieldRange, LeafId, Tree};
use mrs_names::Names;
use std::alloc::AllocError;

/// The end of a field's line.
fn shown_word(is_open: bool) -> &'static [u8]
    ensures { result.now ≡ shown_text is_open }
{
    if is_open { b" shown\n" } else { b" fixed\n" }
}

/// Appends the line of a field, some bit of which is open or not.
fn push_field_line(
    out: &mut Vec<u8>,
    names: &Names,
    field: FieldRange,
    is_open: bool,
) -> Result<(), AllocError>
    requires { field.name.0 < length names.now }
    ensures { OnOk result (out.new.items ≡ out.old.items ++ field_text (field_of names.now field) is_open) }
{
    out.extend_from_slice(b"field ")?;
    out.extend_from_slice(name_bytes(names, field.name))?;
    out.push(b' ')?;
    push_decimal(out, u32::from(field.range.start))?;
    out.push(b' ')?;
    push_decimal(out, u32::from(field.range.width))?;
    out.extend_from_slice(shown_word(is_open))?;
    Ok(())
}

/// Appends the lines of the visible fields of a leaf.
fn push_field_lines(
    out: &mut Vec<u8>,
    tree: &Tree,
    names: &Names,
    leaf: LeafId,
) -> Result<(), AllocError>
    requires names { IsOf names.now tree.now }
    requires leaf { leaf.0 < length (tree_paths names.now tree.now) }
    ensures { OnOk result (out.new.items ≡ out.old.items ++ flat_map (field_line (path_at names.now tree.now leaf.0)) (fields (path_at names.now tree.now leaf.0))) }
{
    let layout = tree.layout(leaf);
    let fields = tree.fields(leaf);
    for field in fields {
        push_field_line(out, names, *field, layout.is_open(field.range))?;
    }
    Ok(())
}

/// Appends the line of the free unnamed bits of a leaf.
fn push_free_line(
    out: &mut Vec<u8>,
    tree: &Tree,
    names: &Names,
    leaf: LeafId,
) -> Result<(), AllocError>
    requires names { IsOf names.now tree.now }
    requires leaf { leaf.0 < length (tree_paths names.now tree.now) }
    ensures { OnOk result (out.new.items ≡ out.old.items ++ free_line (path_at names.now tree.now leaf.0)) }
{
    out.extend_from_slice(b"rest 0x")?;
    push_hex(out, u64::from(tree.free_unnamed(leaf)), 8)?;
    out.extend_from_slice(b" 0x")?;
    push_hex(out, u64::from(tree.default_bits(leaf)), 8)?;
    out.push(b'\n')?;
    Ok(())
}

/// Appends the lines of the visible fields and of the free unnamed bits of a leaf.
pub(crate) fn push_leaf_fields(
    out: &mut Vec<u8>,
    tree: &Tree,
    names: &Names,
    leaf: LeafId,
) -> Result<(), AllocError>
    requires names { IsOf names.now tree.now }
    requires leaf { leaf.0 < length (tree_paths names.now tree.now) }
    ensures { OnOk result (out.new.items ≡ out.old.items ++ fields_text (path_at names.now tree.now leaf.0)) }
{
    push_field_lines(out, tree, names, leaf)?;
    push_free_line(out, tree, names, leaf)
}
