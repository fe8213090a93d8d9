//! A leaf at which a word is found alone.
ghost use Rattle.std.specs.Prelude.{◌≡◌, ◌++◌, ◌<◌, length, OnOk};
ghost use Rattle.spec_lines.specs.LoneLeaf.{lone_leaf, lone_by};
ghost use Rattle.list_words.specs.Listers.{IsOneRelease, machine};
ghost use Rattle.list_words.specs.Ways.{way_by, IsWayOf};

use crate::label::push_label;
use crate::lister::Lister;
use crate::written::push_written;
use insn_tree::{LeafId, PathId};
use std::alloc::AllocError;

/// Appends a leaf of which a word is told, by it or by an alias of it.
fn push_by(
    out: &mut Vec<u8>,
    lister: &Lister<'_>,
    leaf: LeafId,
    path: PathId,
    w: u32,
) -> Result<(), AllocError>
    requires release { IsOneRelease lister.now }
    requires leaf { leaf.0 < length (machine lister.now).paths }
    requires way { IsWayOf lister.now.tree.now (way_by path) }
    ensures { OnOk result (out.new.items ≡ out.old.items ++ lone_by (machine lister.now) leaf.0 w (way_by path)) }
{
    match path {
        PathId::Leaf(_) => {}
        PathId::Alias(_) => {
            push_label(out, lister.tree, lister.names, leaf)?;
            out.extend_from_slice(b" alias ")?;
        }
    }
    push_written(out, lister, path, w)
}

/// Appends the label of a leaf, and the fields and the rest of a word at it; or, where an alias is preferred, the label of the
/// leaf and behind it the alias, with the fields and the rest of the alias.
pub(crate) fn push_lone_leaf(
    out: &mut Vec<u8>,
    lister: &Lister<'_>,
    leaf: LeafId,
    w: u32,
) -> Result<(), AllocError>
    requires release { IsOneRelease lister.now }
    requires leaf { leaf.0 < length (machine lister.now).paths }
    ensures { OnOk result (out.new.items ≡ out.old.items ++ lone_leaf (machine lister.now) leaf.0 w) }
{
    push_by(out, lister, leaf, lister.path_of(leaf, w), w)
}
