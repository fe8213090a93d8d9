//! What is kept of each alias.

ghost use Rattle.std.specs.Prelude.{◌≡◌, ℕ, ◌+◌, List, IfOk, length, map};
ghost use Rattle.spec_instructions.specs.Aliases.{labelled_alias};
ghost use Rattle.mrs_arena.specs.Formed.{AreNodes};
ghost use Rattle.mrs_arena.specs.Placed.{leaves_of, aliases_of, AreHeld};
ghost use Rattle.insn_tree.specs.Aliases.{aliases_by};
ghost use Rattle.insn_tree.specs.Chains.{alias_leaves};
ghost use Rattle.insn_tree.specs.Trees.{number_of};
ghost use Rattle.insn_tree.specs.Kept.{AreAliases};

use crate::alias_chains::{AliasChains, chain_aliases};
use crate::alias_nodes::AliasNodes;
use crate::alias_word::own_patterns;
use crate::leaf_id::LeafId;
use crate::memory::NoMemory;
use crate::path_table::{PathTable, describe_paths};
use bit_pattern::Pattern;
use mrs_arena::Arena;
use mrs_names::Names;
use std::alloc::Global;

/// For each alias its path, its leaf, and what its own items fix; and the aliases of each leaf, one after another.
#[derive(Drop)]
pub(crate) struct AliasTable {
    pub paths: PathTable,
    pub leaves: Vec<LeafId>,
    pub own: Vec<Option<Pattern>>,
    pub chains: AliasChains,
}

/// What is kept of these aliases. `count` is that of the leaves.
pub(crate) fn describe_aliases(
    alloc: Global,
    arena: &Arena,
    names: &Names,
    aliases: AliasNodes,
    count: usize,
) -> Result<AliasTable, NoMemory>
    requires nodes { map (λ n. n.0) aliases.nodes.items ≡ aliases_of arena.now.nodes }
    requires leaves { map (λ l. l.0) aliases.leaves.items ≡ alias_leaves arena.now.nodes }
    requires count { count ≡ length (leaves_of arena.now.nodes) }
    requires formed { AreNodes arena.now.nodes }
    requires held { AreHeld names.now arena.now.nodes }
    ensures aliases { IfOk result (AreAliases arena.now.nodes) }
    ensures labels { IfOk result (λ t. (text : List ℕ) → number_of text t.paths.labels ≡ labelled_alias (aliases_by names.now arena.now.nodes) text) }
{
    let AliasNodes { nodes, leaves } = aliases;
    let own = own_patterns(alloc, arena, &nodes)?;
    let chains = chain_aliases(alloc, &leaves, count + 1)?;
    let paths = describe_paths(alloc, arena, names, nodes)?;
    Ok(AliasTable {
        paths,
        leaves,
        own,
        chains,
    })
}
