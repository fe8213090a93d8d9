//! The bits of the word that the items along a leaf's path fix.

ghost use Rattle.std.specs.Prelude.{◌≡◌, ◌<◌, All, IfOk, IfSome, length, map, option_map};
ghost use Rattle.bit_pattern.specs.Views.{digits_of};
ghost use Rattle.insn_tree.specs.Words.{merged_at};

use crate::item_word::{FREE, joined_with_all};
use crate::memory::NoMemory;
use bit_pattern::Pattern;
use mrs_arena::{Arena, NodeId};
use std::alloc::Global;

/// What the items along the path to a node fix; `None` where two of them clash.
fn merged_pattern(arena: &Arena, n: NodeId) -> Option<Pattern>
    requires { n.0 < length arena.now.nodes }
    ensures digits { option_map digits_of result ≡ merged_at arena.now.nodes n.0 }
    ensures width { IfSome result (λ p. p.width ≡ 32) }
{
    let mut merged = Some(FREE);
    for above in arena.path(n) {
        merged = joined_with_all(merged, arena.node(above).items());
    }
    merged
}

/// What the items along each leaf's path fix.
pub(crate) fn merged_patterns(
    alloc: Global,
    arena: &Arena,
    leaves: &[NodeId],
) -> Result<Vec<Option<Pattern>>, NoMemory>
    requires { All (λ n. n.0 < length arena.now.nodes) leaves.now }
    ensures digits { IfOk result (λ v. map (option_map digits_of) v.items ≡ map (λ n. merged_at arena.now.nodes n.0) leaves.now) }
    ensures widths { IfOk result (λ v. All (λ merged. IfSome merged (λ p. p.width ≡ 32)) v.items) }
{
    let mut patterns = Vec::with_capacity(alloc, leaves.len())?;
    for leaf in leaves {
        patterns.push(merged_pattern(arena, *leaf))?;
    }
    Ok(patterns)
}
