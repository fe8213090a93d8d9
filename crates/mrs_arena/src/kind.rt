//! Kinds of nodes.

/// What a node is: a set of instructions, a group of nodes, a leaf, which is one instruction, or an alias of a leaf.
#[derive(Clone, Copy, PartialEq, Eq, Debug)]
pub enum Kind {
    Set,
    Group,
    Leaf,
    Alias,
}

impl Kind {
    ghost use Rattle.std.specs.Prelude.{◌≡◌};
    ghost use Rattle.mrs_arena.specs.Limits.{is_leaf, is_alias};

    /// Whether this is the kind of a leaf.
    pub fn is_leaf(self) -> bool
        ensures { result ≡ is_leaf self }
    {
        matches!(self, Kind::Leaf)
    }

    /// Whether this is the kind of an alias.
    pub fn is_alias(self) -> bool
        ensures { result ≡ is_alias self }
    {
        matches!(self, Kind::Alias)
    }
}
