//! The aliases of each leaf, one after another.

ghost use Rattle.std.specs.Prelude.{◌<◌, ◌≤◌, All, IfOk, length, map};
ghost use Rattle.spec_walk.specs.Limits.{node_limit};
ghost use Rattle.insn_tree.specs.Chains.{AreChains};

use crate::leaf_id::{AliasId, LeafId};
use crate::memory::NoMemory;
use std::alloc::Global;

/// For each leaf its first alias, and for each alias the next one of its leaf.
#[derive(Drop)]
pub(crate) struct AliasChains {
    pub firsts: Vec<Option<AliasId>>,
    pub nexts: Vec<Option<AliasId>>,
}

/// Chains the aliases of so many leaves, where these are the leaves of the aliases, from the last alias on.
pub(crate) fn chain_aliases(
    alloc: Global,
    leaves: &[LeafId],
    count: usize,
) -> Result<AliasChains, NoMemory>
    requires few { length leaves.now ≤ node_limit }
    requires within { All (λ l. l.0 < count) leaves.now }
    ensures { IfOk result (AreChains (map (λ l. l.0) leaves.now) count) }
{
    let mut firsts = vec![in alloc; None; count]?;
    let mut nexts = vec![in alloc; None; leaves.len()]?;
    'aliases: for a in (0..leaves.len()).rev() {
        let l = leaves[a].0 as usize;
        nexts[a] = firsts[l];
        firsts[l] = Some(AliasId(a as u32));
    }
    Ok(AliasChains { firsts, nexts })
}
