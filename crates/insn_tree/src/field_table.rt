//! The fields of all paths, in one array.

use crate::field_range::FieldRange;
use crate::memory::NoMemory;
use std::alloc::Global;
use std::marker::Model;

/// Where a path's fields stand: from place `from` up to place `to`.
#[derive(Clone, Copy)]
struct Part {
    from: usize,
    to: usize,
}

/// A list of fields for each path. A clause sees these lists.
#[derive(Drop)]
pub(crate) struct FieldTable {
    fields: Vec<FieldRange>,
    parts: Vec<Part>,
}

impl Model for FieldTable {
    ghost use Rattle.std.specs.Prelude.{List, All, map};
    ghost use Rattle.insn_tree.specs.Visible.{FlatField};
    ghost use Rattle.insn_tree.specs.Parts.{part_of, IsPart};

    ghost Value = { List (List FlatField) };

    ghost view = { λ t. map (part_of t.fields.items) t.parts.items };

    ghost invariant = { λ t. All (IsPart t.fields.items) t.parts.items };
}

impl FieldTable {
    ghost use Rattle.std.specs.Prelude.{◌≡◌, ◌<◌, [], ◌∷◌, ◌++◌, OnOk, Some, length, map, slice_get};
    ghost use Rattle.insn_tree.specs.Views.{flat_field};

    /// No paths.
    pub(crate) fn new(alloc: Global) -> FieldTable
        ensures { result ≡ [] }
    {
        FieldTable {
            fields: Vec::new(alloc),
            parts: Vec::new(alloc),
        }
    }

    /// Puts the fields of one more path.
    pub(crate) fn push(&mut self, fields: &[FieldRange]) -> Result<(), NoMemory>
        ensures { OnOk result (self.new ≡ self.old ++ map flat_field fields.now ∷ []) }
    {
        let from = self.fields.len();
        self.fields.extend_from_slice(fields)?;
        let to = self.fields.len();
        self.parts.push(Part { from, to })?;
        Ok(())
    }

    /// The fields of path `k`.
    pub(crate) fn at(&self, k: usize) -> &[FieldRange]
        requires { k < length self.now }
        ensures { slice_get self.now k ≡ Some (map flat_field result.now) }
    {
        let part = self.parts[k];
        &self.fields[part.from..part.to]
    }
}
