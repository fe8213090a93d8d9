//! Laws that readers may rely on: what the definitions of documents, fields, merged bits and labels come to.

ghost use Rattle.spec_instructions.specs.Reading.{FirstFaultDecides, TreesAreSound};
ghost use Rattle.spec_instructions.specs.SoundPaths.{PathsAreSound};
ghost use Rattle.spec_instructions.specs.Paths.{LabelsFindLeaves, LabelsTellLeaves};
ghost use Rattle.spec_instructions.specs.Aliases.{AliasesAreBelowLeaves, AliasesAreAll, LabelsTellAliases};
ghost use Rattle.spec_instructions.specs.Fields.{FieldsAreVisible, MergedIsExact};

/// A law on the walk over a document: what decides is the first of its events that is a fault or passes a limit.
pub fn first_fault_decides()
    ensures { FirstFaultDecides }
{}

/// A law on the tree of an accepted document: its root is a set and no other node is one, below each node stand only
/// nodes that may, names are within their limits, and each item lies within the word, with a mark for each digit.
pub fn trees_are_sound()
    ensures { TreesAreSound }
{}

/// A law on the paths to the leaves of an accepted document: there are no more of them than of leaves there may be, the
/// name of each is a name, its items lie within the word, with a mark for each digit, and no more of them have a name,
/// none of the words `rest` and `sys`, than may.
pub fn paths_are_sound()
    ensures { PathsAreSound }
{}

/// A law on the visible fields: a field is there exactly where some item of the path has its name. It is the deepest
/// item of that name, each name stands there once, and the fields stand in the order of these items.
pub fn fields_are_visible()
    ensures { FieldsAreVisible }
{}

/// A law on the merged bits: a digit fixes a bit exactly where some item of the path does, to the same value, and there
/// are none exactly where two items of the path fix one bit to different values. All items lie within the word, as
/// those of each document without faults do.
pub fn merged_is_exact()
    ensures { MergedIsExact }
{}

/// Laws on labels of paths: by one the first path that has it is found. Where the paths' names are names, which hold no
/// `#`, and the paths no more than there may be leaves, as in each document without faults, no two have one label.
pub fn labels_tell_leaves()
    ensures first { LabelsFindLeaves }
    ensures distinct { LabelsTellLeaves }
{}

/// Laws on aliases: the path of each is that of its leaf with one node behind it, which is an alias, and the aliases stand
/// in the order of their leaves. In the tree of an accepted document they are all nodes that are aliases, once and in
/// document order, and no two have one label.
pub fn aliases_are_those_of_leaves()
    ensures below { AliasesAreBelowLeaves }
    ensures all { AliasesAreAll }
    ensures labels { LabelsTellAliases }
{}
