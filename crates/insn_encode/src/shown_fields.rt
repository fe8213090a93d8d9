//! The shown fields of a leaf, one after the other.

use crate::fields::is_shown;
use insn_tree::FieldRange;
use std::marker::Model;
use word_layout::WordLayout;

/// The shown fields among visible ones, in their order. A clause sees the list of those that are left.
#[derive(Drop)]
pub struct Shown<'a> {
    fields: &'a [FieldRange],
    at: usize,
    layout: WordLayout,
}

impl<'a> Model for Shown<'a> {
    ghost use Rattle.std.specs.Prelude.{List, All, length, drop, ◌≤◌, ◌+◌};
    ghost use Rattle.insn_tree.specs.Visible.{FlatField};
    ghost use Rattle.insn_encode.specs.Shown.{shown_among};

    ghost Value = { List FlatField };

    ghost view = { λ s. shown_among s.layout (drop s.at s.fields.now) };

    ghost invariant = { λ s. All (λ f. f.range.start + f.range.width ≤ 32) s.fields.now × (s.at ≤ length s.fields.now) };
}

impl<'a> Shown<'a> {
    ghost use Rattle.std.specs.Prelude.{All, ◌≡◌, ◌≤◌, ◌+◌};
    ghost use Rattle.insn_encode.specs.Shown.{shown_among};

    pub(crate) fn new(fields: &'a [FieldRange], layout: WordLayout) -> Shown<'a>
        requires { All (λ f. f.range.start + f.range.width ≤ 32) fields.now }
        ensures { result ≡ shown_among layout fields.now }
    {
        Shown {
            fields,
            at: 0,
            layout,
        }
    }
}

impl<'a> Iterator for Shown<'a> {
    ghost use Rattle.std.specs.Iterator.{YieldsFirstBy, item_count};
    ghost use Rattle.insn_tree.specs.Views.{flat_field};

    type Item = FieldRange;

    ghost next_gives = { YieldsFirstBy flat_field (λ s. s) };

    ghost remaining = { item_count (λ s. s) };

    fn next(&mut self) -> Option<FieldRange> {
        'fields: while self.at < self.fields.len() {
            let field = self.fields[self.at];
            self.at += 1;
            if is_shown(&self.layout, &field) {
                return Some(field);
            }
        }
        None
    }
}
