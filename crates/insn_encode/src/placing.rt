//! The word that is made of pairs and a rest, before it is asked whether the path excludes it.

ghost use Rattle.std.specs.Prelude.{◌≡◌, ◌==◌, ◌+◌, ◌≤◌, All, map, length, Ok};
ghost use Rattle.spec_encoding.specs.Named.{encoded};
ghost use Rattle.word_layout.specs.Views.{layout_of};
ghost use Rattle.insn_encode.specs.Views.{shown_of, pair_of, Places};

use crate::fault::EncodeFault;
use crate::names::{doubled_at, missing_name, unknown_at};
use crate::values::{given_by, wide_at};
use insn_tree::FieldRange;
use mrs_names::NameId;
use word_layout::WordLayout;

/// The word that is made of the pairs' values and the rest, or the first refusal before `Excluded`.
pub(crate) fn place(
    fields: &[FieldRange],
    layout: &WordLayout,
    pairs: &[(NameId, u32)],
    rest: u32,
) -> Result<u32, EncodeFault>
    requires within { All (λ f. f.range.start + f.range.width ≤ 32) fields.now }
    requires few { length pairs.now ≤ 256 }
    ensures { Places layout.now fields.now pairs.now rest result }
{
    if let Some(i) = unknown_at(fields, layout, pairs) {
        return Err(EncodeFault::UnknownField { i });
    }
    if let Some(i) = doubled_at(pairs) {
        return Err(EncodeFault::DoubledField { i });
    }
    if let Some(name) = missing_name(fields, layout, pairs) {
        return Err(EncodeFault::MissingField { name });
    }
    if let Some(i) = wide_at(fields, layout, pairs) {
        return Err(EncodeFault::TooWide { i });
    }
    let given = given_by(fields, layout, pairs);
    if let Some(bit) = given.clash_bit() {
        return Err(EncodeFault::Clash { bit });
    }
    if let Some(bit) = layout.misfixed_bit(given) {
        return Err(EncodeFault::FixedBit { bit });
    }
    if let Some(bit) = layout.stray_bit(rest) {
        return Err(EncodeFault::RestBit { bit });
    }
    Ok(layout.made(given, rest))
}
