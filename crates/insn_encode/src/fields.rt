//! The shown fields among the visible ones.

ghost use Rattle.std.specs.Prelude.{◌≡◌, ◌==◌, ◌+◌, ◌≤◌, All, IfSome, map, option_map};
ghost use Rattle.spec_encoding.specs.Named.{field_for};
ghost use Rattle.insn_encode.specs.Views.{is_shown, shown_of, field_of, ends, range_of};

use bit_pattern::Range;
use insn_tree::FieldRange;
use mrs_names::NameId;
use word_layout::WordLayout;

/// Whether some bit of a field is not fixed.
pub(crate) fn is_shown(layout: &WordLayout, field: &FieldRange) -> bool
    requires { field.now.range.start + field.now.range.width ≤ 32 }
    ensures { result ≡ is_shown layout.now (field_of field.now) }
{
    layout.is_open(field.range)
}

/// The range of the shown field of a name.
pub(crate) fn shown_range(fields: &[FieldRange], layout: &WordLayout, name: NameId) -> Option<Range>
    requires { All (λ f. f.range.start + f.range.width ≤ 32) fields.now }
    ensures within { IfSome result (λ r. r.start + r.width ≤ 32) }
    ensures field { option_map ends result ≡ option_map range_of (field_for (λ a b. a == b) (shown_of layout.now fields.now) name.0) }
{
    for field in fields {
        if field.name != name {
            continue;
        }
        if is_shown(layout, field) {
            return Some(field.range);
        }
    }
    None
}
