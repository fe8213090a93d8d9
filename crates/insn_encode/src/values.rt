//! The bits that the values of pairs give.

ghost use Rattle.std.specs.Prelude.{◌≡◌, ◌==◌, ◌+◌, ◌≤◌, ◌||◌, All, map, length, None, false};
ghost use Rattle.std.specs.List.{position_from};
ghost use Rattle.spec_encoding.specs.Parts.{is_too_wide, gives};
ghost use Rattle.spec_encoding.specs.Named.{parts};
ghost use Rattle.word_layout.specs.Masks.{has_bit, IsMask, GivesParts};
ghost use Rattle.insn_encode.specs.Views.{shown_of, pair_of, part_for};

use crate::fields::shown_range;
use insn_tree::FieldRange;
use mrs_names::NameId;
use word_layout::{Given, WordLayout, is_too_wide};

/// Whether a pair's value does not fit its field.
fn is_wide(fields: &[FieldRange], layout: &WordLayout, name: NameId, value: u32) -> bool
    requires within { All (λ f. f.range.start + f.range.width ≤ 32) fields.now }
    ensures { result ≡ is_too_wide (part_for (shown_of layout.now fields.now) name.0 value) }
{
    match shown_range(fields, layout, name) {
        Some(range) => is_too_wide(range, value),
        None => false,
    }
}

/// The bits that are given, and those that a pair gives.
fn with_pair(
    given: Given,
    fields: &[FieldRange],
    layout: &WordLayout,
    name: NameId,
    value: u32,
) -> Given
    requires within { All (λ f. f.range.start + f.range.width ≤ 32) fields.now }
    requires fits { is_too_wide (part_for (shown_of layout.now fields.now) name.0 value) ≡ false }
    ensures ones { IsMask result.ones (λ i. has_bit given.ones i || gives i 1 (part_for (shown_of layout.now fields.now) name.0 value)) }
    ensures zeros { IsMask result.zeros (λ i. has_bit given.zeros i || gives i 0 (part_for (shown_of layout.now fields.now) name.0 value)) }
{
    match shown_range(fields, layout, name) {
        Some(range) => given.with(range, value),
        None => given,
    }
}

/// The first pair whose value does not fit its field.
pub(crate) fn wide_at(
    fields: &[FieldRange],
    layout: &WordLayout,
    pairs: &[(NameId, u32)],
) -> Option<u32>
    requires within { All (λ f. f.range.start + f.range.width ≤ 32) fields.now }
    requires few { length pairs.now ≤ 256 }
    ensures { result ≡ position_from is_too_wide 0 (parts (λ a b. a == b) (shown_of layout.now fields.now) (map pair_of pairs.now)) }
{
    for i in 0..pairs.len() {
        if is_wide(fields, layout, pairs[i].0, pairs[i].1) {
            return Some(i as u32);
        }
    }
    None
}

/// The bits that the pairs give.
pub(crate) fn given_by(fields: &[FieldRange], layout: &WordLayout, pairs: &[(NameId, u32)]) -> Given
    requires within { All (λ f. f.range.start + f.range.width ≤ 32) fields.now }
    requires fits { position_from is_too_wide 0 (parts (λ a b. a == b) (shown_of layout.now fields.now) (map pair_of pairs.now)) ≡ None }
    ensures { GivesParts (parts (λ a b. a == b) (shown_of layout.now fields.now) (map pair_of pairs.now)) result.ones result.zeros }
{
    let mut given = Given::none();
    for i in 0..pairs.len() {
        given = with_pair(given, fields, layout, pairs[i].0, pairs[i].1);
    }
    given
}
