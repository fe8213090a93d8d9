//! The fields and the rest of a word at a leaf or an alias.
ghost use Rattle.std.specs.Prelude.{◌≡◌, ◌+◌, ◌++◌, ◌<◌, ◌≤◌, length, OnOk, flat_map};
ghost use Rattle.spec_bits.specs.Bits.{slice};
ghost use Rattle.spec_encoding.specs.Encoding.{own_pairs};
ghost use Rattle.spec_lines.specs.Pairs.{pair_text, rest_text, pairs_text};
ghost use Rattle.spec_lines.specs.Way.{way_path};
ghost use Rattle.mrs_arena.specs.Placed.{text_of};
ghost use Rattle.list_words.specs.Listers.{IsOneRelease, machine};
ghost use Rattle.list_words.specs.Ways.{way_by, IsWayOf};

use crate::decimal::push_decimal;
use crate::hex::push_hex;
use crate::lister::Lister;
use crate::name::name_bytes;
use bit_pattern::Range;
use insn_tree::{FieldRange, PathId};
use mrs_names::Names;
use std::alloc::AllocError;

/// The value that a word has in a range that lies within it.
#[tactic(auto, using(crate::proofs::SliceLaws::masked_is_slice))]
fn value_in(w: u32, range: Range) -> u32
    requires { range.start + range.width ≤ 32 }
    ensures { result ≡ slice w range.start range.width }
{
    (w >> range.start) & (u32::MAX >> (32 - range.width))
}

/// Appends a field of a word: its name and its value.
fn push_pair(out: &mut Vec<u8>, names: &Names, field: FieldRange, w: u32) -> Result<(), AllocError>
    requires within { field.range.start + field.range.width ≤ 32 }
    requires held { field.name.0 < length names.now }
    ensures { OnOk result (out.new.items ≡ out.old.items ++ pair_text (text_of names.now field.name.0, slice w field.range.start field.range.width)) }
{
    out.push(b' ')?;
    out.extend_from_slice(name_bytes(names, field.name))?;
    out.push(b'=')?;
    push_decimal(out, value_in(w, field.range))
}

/// Appends the shown fields of a word at a leaf or an alias.
fn push_fields(
    out: &mut Vec<u8>,
    lister: &Lister<'_>,
    path: PathId,
    w: u32,
) -> Result<(), AllocError>
    requires release { IsOneRelease lister.now }
    requires way { IsWayOf lister.now.tree.now (way_by path) }
    ensures { OnOk result (out.new.items ≡ out.old.items ++ flat_map pair_text (own_pairs (way_path (machine lister.now) (way_by path)) w)) }
{
    for field in lister.shown(path) {
        push_pair(out, lister.names, field, w)?;
    }
    Ok(())
}

/// Appends a rest, unless it is 0.
fn push_rest(out: &mut Vec<u8>, rest: u32) -> Result<(), AllocError>
    ensures { OnOk result (out.new.items ≡ out.old.items ++ rest_text rest) }
{
    if rest == 0 {
        return Ok(());
    }
    out.extend_from_slice(b" rest=0x")?;
    push_hex(out, u64::from(rest), 8)
}

/// Appends the shown fields and the rest of a word at a leaf or an alias.
pub(crate) fn push_pairs(
    out: &mut Vec<u8>,
    lister: &Lister<'_>,
    path: PathId,
    w: u32,
) -> Result<(), AllocError>
    requires release { IsOneRelease lister.now }
    requires way { IsWayOf lister.now.tree.now (way_by path) }
    ensures { OnOk result (out.new.items ≡ out.old.items ++ pairs_text (way_path (machine lister.now) (way_by path)) w) }
{
    push_fields(out, lister, path, w)?;
    push_rest(out, lister.rest_of(path, w))
}
