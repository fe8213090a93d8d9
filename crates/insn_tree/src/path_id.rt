//! Paths of a tree, by what they end at.

use crate::leaf_id::{AliasId, LeafId};

/// A path of the tree: the one to a leaf, or the one through a leaf to an alias of it.
#[derive(Clone, Copy, PartialEq, Eq, Debug)]
pub enum PathId {
    Leaf(LeafId),
    Alias(AliasId),
}

impl PathId {
    ghost use Rattle.std.specs.Prelude.{◌≡◌};
    ghost use Rattle.insn_tree.specs.PathIds.{number};

    /// The number of the leaf or the alias that it ends at.
    pub(crate) fn number(self) -> u32
        ensures { result ≡ number self }
    {
        match self {
            PathId::Leaf(leaf) => leaf.0,
            PathId::Alias(alias) => alias.0,
        }
    }
}
