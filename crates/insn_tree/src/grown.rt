//! Names that grow once a tree is made.

ghost use Rattle.insn_tree.specs.Grown.{GrownNamesServe};

/// A law: more names may be put behind those that a tree was made with. Each call that asks for the tree's names takes
/// the longer list as well, and leaves and aliases keep their paths, and so their labels.
pub fn grown_names_serve()
    ensures { GrownNamesServe }
{}
