//! Numbers of nodes.

/// The number of a node. Nodes are numbered from 0 in the order in which they were put, each before the nodes below it.
#[derive(Clone, Copy, PartialEq, Eq, PartialOrd, Ord, Hash, Debug)]
pub struct NodeId(pub u32);
