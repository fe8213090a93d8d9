//! The bits of the word that the items of each alias itself fix.

ghost use Rattle.std.specs.Prelude.{◌≡◌, ◌<◌, All, IfOk, IfSome, length, map, option_map};
ghost use Rattle.bit_pattern.specs.Views.{digits_of};
ghost use Rattle.insn_tree.specs.Words.{own_merged_at};

use crate::item_word::{FREE, joined_with_all};
use crate::memory::NoMemory;
use bit_pattern::Pattern;
use mrs_arena::{Arena, NodeId};
use std::alloc::Global;

/// What the items of a node fix; `None` where two of them clash.
fn own_pattern(arena: &Arena, n: NodeId) -> Option<Pattern>
    requires { n.0 < length arena.now.nodes }
    ensures digits { option_map digits_of result ≡ own_merged_at arena.now.nodes n.0 }
    ensures width { IfSome result (λ p. p.width ≡ 32) }
{
    joined_with_all(Some(FREE), arena.node(n).items())
}

/// What the items of each alias itself fix.
pub(crate) fn own_patterns(
    alloc: Global,
    arena: &Arena,
    aliases: &[NodeId],
) -> Result<Vec<Option<Pattern>>, NoMemory>
    requires { All (λ n. n.0 < length arena.now.nodes) aliases.now }
    ensures digits { IfOk result (λ v. map (option_map digits_of) v.items ≡ map (λ n. own_merged_at arena.now.nodes n.0) aliases.now) }
    ensures widths { IfOk result (λ v. All (λ own. IfSome own (λ p. p.width ≡ 32)) v.items) }
{
    let mut patterns = Vec::with_capacity(alloc, aliases.len())?;
    for alias in aliases {
        patterns.push(own_pattern(arena, *alias))?;
    }
    Ok(patterns)
}
