//! Growing the decision tree.

ghost use Rattle.std.specs.Prelude.{◌≡◌, ◌<◌, ◌≤◌, ◌+◌, ◌^◌, ◌∷◌, ◌++◌, [], IfOk, OnOk, None, length, map};
ghost use Rattle.spec_decode.specs.Bucket.{next_bit};
ghost use Rattle.insn_decode.specs.Members.{encoding_of};
ghost use Rattle.insn_decode.specs.Decides.{Decides, Extends, most_nodes};
ghost use Rattle.insn_decode.specs.declared.node.Node.TheVariants.{Leaves, Test};

use crate::member::Member;
use crate::node::Node;
use crate::splitting::{next_bit, side};
use insn_tree::NoMemory;
use std::alloc::Global;

/// Puts a node behind the others, and gives its number.
fn push_node(nodes: &mut Vec<Node>, node: Node) -> Result<u32, NoMemory>
    requires { length nodes.now.items < 2 ^ 32 }
    ensures number { IfOk result (λ k. k ≡ length nodes.old.items) }
    ensures nodes { OnOk result (nodes.new.items ≡ nodes.old.items ++ node ∷ []) }
{
    let number = nodes.len() as u32;
    nodes.push(node)?;
    Ok(number)
}

/// Puts a bucket of these leaves.
fn push_leaves(
    nodes: &mut Vec<Node>,
    order: &mut Vec<Member>,
    members: &[Member],
) -> Result<u32, NoMemory>
    requires none { next_bit (map encoding_of members.now) ≡ None }
    requires number { length nodes.now.items < 2 ^ 32 }
    requires places { length order.now.items + length members.now < 2 ^ 32 }
    ensures decides { IfOk result (λ k. Decides nodes.new.items (map encoding_of order.new.items) k (map encoding_of members.now)) }
    ensures nodes { OnOk result (Extends nodes.old.items nodes.new.items) }
    ensures order { OnOk result (Extends order.old.items order.new.items) }
    ensures one { OnOk result (length nodes.new.items ≡ length nodes.old.items + 1) }
    ensures places { OnOk result (length order.new.items ≡ length order.old.items + length members.now) }
{
    let from = order.len() as u32;
    order.extend_from_slice(members)?;
    let to = order.len() as u32;
    push_node(nodes, Node::Leaves { from, to })
}

/// Puts the nodes that tell these leaves apart behind the others, and their buckets behind the order, and gives the number of the topmost.
pub(crate) fn grow(
    alloc: Global,
    nodes: &mut Vec<Node>,
    order: &mut Vec<Member>,
    members: &[Member],
) -> Result<u32, NoMemory>
    requires nodes { length nodes.now.items + most_nodes (length members.now) ≤ 2 ^ 32 }
    requires places { length order.now.items + length members.now < 2 ^ 32 }
    ensures decides { IfOk result (λ k. Decides nodes.new.items (map encoding_of order.new.items) k (map encoding_of members.now)) }
    ensures nodes { OnOk result (Extends nodes.old.items nodes.new.items) }
    ensures order { OnOk result (Extends order.old.items order.new.items) }
    ensures few { OnOk result (length nodes.new.items ≤ length nodes.old.items + most_nodes (length members.now)) }
    ensures places { OnOk result (length order.new.items ≤ length order.old.items + length members.now) }
{
    let Some(bit) = next_bit(members) else {
        return push_leaves(nodes, order, members);
    };
    let with_zero = side(alloc, members, bit, 0)?;
    let zero = grow(alloc, nodes, order, &with_zero)?;
    let with_one = side(alloc, members, bit, 1)?;
    let one = grow(alloc, nodes, order, &with_one)?;
    push_node(nodes, Node::Test { bit, zero, one })
}
