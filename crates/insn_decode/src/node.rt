//! Nodes of the decision tree.

ghost use Rattle.std.specs.Prelude.{◌≡◌, ◌<◌, length, slice_get, Some};

/// A node of the decision tree, whose nodes stand in one array, those below a node before it. It takes 12 bytes: its numbers have 32 bits.
#[derive(Clone, Copy)]
pub(crate) enum Node {
    /// A bucket: the leaves from place `from` up to place `to` of the order.
    Leaves { from: u32, to: u32 },
    /// A test of a bit: node `zero` follows where it is 0, and node `one` where it is 1.
    Test { bit: u8, zero: u32, one: u32 },
}

/// Node number `k`.
pub(crate) fn node_at(nodes: &[Node], k: u32) -> Node
    requires { k < length nodes.now }
    ensures { slice_get nodes.now k ≡ Some result }
{
    nodes[k as usize]
}
