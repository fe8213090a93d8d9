//! The limits on nodes and items, by what is kept of them.

ghost use Rattle.std.specs.Prelude.{◌≡◌, ◌-◌, ◌≤◌, ◌||◌, ◌&&◌, nat_le};
ghost use Rattle.spec_instructions.specs.Limits.{item_limit, named_limit};
ghost use Rattle.mrs_arena.specs.Limits.{is_kind_full};

use crate::kind::Kind;
use crate::node::StoredNode;

/// How many nodes there are at most.
pub(crate) const MOST_NODES: usize = 1_048_576;

/// How many expressions there are at most, and how many parts all lists of them have together.
pub(crate) const MOST_EXPRESSIONS: usize = 4_194_304;

/// How many leaves, and how many aliases.
const MOST_LEAVES: u32 = 65_536;

const MOST_ALIASES: u32 = 65_536;

/// How many items of one node, and how many named items of a node and those above it.
const MOST_ITEMS: usize = 64;

const MOST_NAMED: u32 = 256;

/// Whether there are as many nodes of that kind as there may be.
pub(crate) fn is_full(kind: Kind, leaves: u32, aliases: u32) -> bool
    ensures { result ≡ is_kind_full kind leaves aliases }
{
    match kind {
        Kind::Set | Kind::Group => false,
        Kind::Leaf => leaves >= MOST_LEAVES,
        Kind::Alias => aliases >= MOST_ALIASES,
    }
}

/// Whether a node takes no more items, or no more named ones.
pub(crate) fn lacks_room(node: &StoredNode, is_named: bool) -> bool
    requires { node.now.from ≤ node.now.to }
    ensures { result ≡ (nat_le item_limit (node.now.to - node.now.from) || (is_named && nat_le named_limit node.now.named)) }
{
    node.to - node.from >= MOST_ITEMS || is_named && node.named >= MOST_NAMED
}
