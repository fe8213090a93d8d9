//! What each path says of the bits of words.

ghost use Rattle.std.specs.Prelude.{◌≡◌, ◌<◌, ℕ, All, IfOk, length, map};
ghost use Rattle.spec_encoding.specs.Layout.{numbers};
ghost use Rattle.mrs_arena.specs.Formed.{AreNodes};
ghost use Rattle.word_layout.specs.Views.{fixed_in, numbers_of};
ghost use Rattle.insn_tree.specs.Layouts.{fixed_at, should_be_at, layout_at};
ghost use Rattle.insn_tree.specs.Visible.{fields_at};
ghost use Rattle.insn_tree.specs.Views.{flat_field};

use crate::field_range::FieldRange;
use crate::field_table::FieldTable;
use crate::item_layout::{bits_of_fields, fixed_by_all, should_be_by_all};
use crate::memory::NoMemory;
use mrs_arena::{Arena, NodeId};
use std::alloc::Global;
use word_layout::{FixedBits, WordLayout};

/// What the items along the path to a node fix, each bit to the value of the first item that fixes it.
fn fixed_bits(arena: &Arena, n: NodeId) -> FixedBits
    requires { n.0 < length arena.now.nodes }
    ensures { (i : ℕ) → fixed_in result i ≡ fixed_at arena.now.nodes n.0 i }
{
    let mut fixed = FixedBits::none();
    for above in arena.path(n) {
        fixed = fixed_by_all(arena.node(above).items(), fixed);
    }
    fixed
}

/// What the items along the path to a node say that bits should be, each bit by the last item that says it.
fn should_be_bits(arena: &Arena, n: NodeId) -> FixedBits
    requires { n.0 < length arena.now.nodes }
    ensures { (i : ℕ) → fixed_in result i ≡ should_be_at arena.now.nodes n.0 i }
{
    let mut should_be = FixedBits::none();
    for above in arena.path(n) {
        should_be = should_be_by_all(arena.node(above).items(), should_be);
    }
    should_be
}

/// What the path to a node, at which these fields are visible, says of the bits of words.
fn layout(arena: &Arena, n: NodeId, fields: &[FieldRange]) -> WordLayout
    requires node { n.0 < length arena.now.nodes }
    requires formed { AreNodes arena.now.nodes }
    requires visible { map flat_field fields.now ≡ fields_at arena.now.nodes n.0 }
    ensures { numbers_of result ≡ numbers (layout_at arena.now.nodes n.0) }
{
    WordLayout::new(
        fixed_bits(arena, n),
        bits_of_fields(fields),
        should_be_bits(arena, n),
    )
}

/// What the paths to these nodes say of the bits of words.
pub(crate) fn path_layouts(
    alloc: Global,
    arena: &Arena,
    ends: &[NodeId],
    fields: &FieldTable,
) -> Result<Vec<WordLayout>, NoMemory>
    requires nodes { All (λ n. n.0 < length arena.now.nodes) ends.now }
    requires formed { AreNodes arena.now.nodes }
    requires visible { fields.now ≡ map (λ n. fields_at arena.now.nodes n.0) ends.now }
    ensures { IfOk result (λ v. map numbers_of v.items ≡ map (λ n. numbers (layout_at arena.now.nodes n.0)) ends.now) }
{
    let mut layouts = Vec::with_capacity(alloc, ends.len())?;
    for k in 0..ends.len() {
        layouts.push(layout(arena, ends[k], fields.at(k)))?;
    }
    Ok(layouts)
}
