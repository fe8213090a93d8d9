//! A leaf or an alias, with the fields and the rest that a word has at it.
ghost use Rattle.std.specs.Prelude.{◌≡◌, ◌++◌, OnOk};
ghost use Rattle.spec_lines.specs.Way.{written};
ghost use Rattle.list_words.specs.Listers.{IsOneRelease, machine};
ghost use Rattle.list_words.specs.Ways.{way_by, IsWayOf};

use crate::lister::Lister;
use crate::pairs::push_pairs;
use insn_tree::PathId;
use std::alloc::AllocError;

/// Appends the label, and the fields and the rest of a word.
pub(crate) fn push_written(
    out: &mut Vec<u8>,
    lister: &Lister<'_>,
    path: PathId,
    w: u32,
) -> Result<(), AllocError>
    requires release { IsOneRelease lister.now }
    requires way { IsWayOf lister.now.tree.now (way_by path) }
    ensures { OnOk result (out.new.items ≡ out.old.items ++ written (machine lister.now) (way_by path) w) }
{
    lister.label(path).push_onto(out)?;
    push_pairs(out, lister, path, w)
}
