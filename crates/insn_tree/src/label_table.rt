//! The paths by their labels.

use crate::memory::NoMemory;
use indexmap::IndexMap;
use std::alloc::Global;
use std::marker::Model;

/// Labels, each with the number of the first path that has it. A clause sees the list of these pairs.
#[derive(Drop)]
pub(crate) struct LabelTable {
    numbers: IndexMap<Vec<u8>, u32>,
}

impl Model for LabelTable {
    ghost use Rattle.std.specs.Prelude.{List, ℕ, map};
    ghost use Rattle.insn_tree.specs.Labels.{labels_of};

    ghost Value = { List (List ℕ × ℕ) };

    ghost view = { λ t. labels_of t.numbers.entries };
}

impl LabelTable {
    ghost use Rattle.std.specs.Prelude.{◌≡◌, [], OnOk};
    ghost use Rattle.insn_tree.specs.Labels.{with_label};
    ghost use Rattle.insn_tree.specs.Trees.{number_of};

    /// No labels.
    pub(crate) fn new(alloc: Global) -> LabelTable
        ensures { result ≡ [] }
    {
        LabelTable {
            numbers: IndexMap::new(alloc),
        }
    }

    /// Puts a path's label, unless an earlier path has it.
    pub(crate) fn put(&mut self, label: Vec<u8>, number: u32) -> Result<(), NoMemory>
        ensures { OnOk result (self.new ≡ with_label label.items number self.old) }
    {
        if self.numbers.contains_key(label.as_slice()) {
            return Ok(());
        }
        self.numbers.insert(label, number)?;
        Ok(())
    }

    /// The number of the path that has the label.
    pub(crate) fn find(&self, text: &[u8]) -> Option<u32>
        ensures { result ≡ number_of text.now self.now }
    {
        self.numbers.get(text).copied()
    }
}
