//! What is refused by the names of pairs alone.

ghost use Rattle.std.specs.Prelude.{◌≡◌, ◌==◌, ◌+◌, ◌≤◌, [], All, map, option_map, length};
ghost use Rattle.std.specs.List.{position_from};
ghost use Rattle.spec_encoding.specs.Named.{is_unknown, is_paired, doubled_from, missing};
ghost use Rattle.insn_encode.specs.Views.{shown_of, pair_of};

use crate::fields::{is_shown, shown_range};
use insn_tree::FieldRange;
use mrs_names::NameId;
use word_layout::WordLayout;

/// Whether a pair has that name.
fn is_paired(pairs: &[(NameId, u32)], name: NameId) -> bool
    ensures { result ≡ is_paired (λ a b. a == b) (map pair_of pairs.now) name.0 }
{
    for pair in pairs {
        if pair.0 == name {
            return true;
        }
    }
    false
}

/// The first pair whose name is not that of a shown field.
pub(crate) fn unknown_at(
    fields: &[FieldRange],
    layout: &WordLayout,
    pairs: &[(NameId, u32)],
) -> Option<u32>
    requires within { All (λ f. f.range.start + f.range.width ≤ 32) fields.now }
    requires few { length pairs.now ≤ 256 }
    ensures { result ≡ position_from (is_unknown (λ a b. a == b) (shown_of layout.now fields.now)) 0 (map pair_of pairs.now) }
{
    for i in 0..pairs.len() {
        if shown_range(fields, layout, pairs[i].0).is_none() {
            return Some(i as u32);
        }
    }
    None
}

/// The first pair whose name stood in an earlier one.
pub(crate) fn doubled_at(pairs: &[(NameId, u32)]) -> Option<u32>
    requires few { length pairs.now ≤ 256 }
    ensures { result ≡ doubled_from (λ a b. a == b) [] 0 (map pair_of pairs.now) }
{
    for i in 0..pairs.len() {
        if is_paired(&pairs[..i], pairs[i].0) {
            return Some(i as u32);
        }
    }
    None
}

/// The name of the first shown field without a pair.
pub(crate) fn missing_name(
    fields: &[FieldRange],
    layout: &WordLayout,
    pairs: &[(NameId, u32)],
) -> Option<NameId>
    requires within { All (λ f. f.range.start + f.range.width ≤ 32) fields.now }
    ensures { option_map (λ n. n.0) result ≡ missing (λ a b. a == b) (shown_of layout.now fields.now) (map pair_of pairs.now) }
{
    for field in fields {
        if is_shown(layout, field) && !is_paired(pairs, field.name) {
            return Some(field.name);
        }
    }
    None
}
