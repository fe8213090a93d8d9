//! Labels of aliases.

ghost use Rattle.std.specs.Prelude.{◌≡◌, ◌<◌, IfSome, length, option_map};
ghost use Rattle.spec_instructions.specs.Aliases.{alias_paths, alias_label, labelled_alias};
ghost use Rattle.mrs_arena.specs.Placed.{aliases_of};
ghost use Rattle.insn_tree.specs.Trees.{IsOf, tree_aliases, label_text, label_number};

use insn_tree::{AliasId, LabelRef, Tree};
use mrs_names::Names;

/// The label of an alias: its name alone, or, where another alias has the name, the name, `#` and its number among all
/// aliases. `names` are those that the tree was made with, or these with more behind them.
pub fn alias_label<'a>(tree: &'a Tree, a: AliasId, names: &'a Names) -> LabelRef<'a>
    requires alias { a.0 < length (aliases_of tree.now.nodes) }
    requires names { IsOf names.now tree.now }
    ensures text { label_text result ≡ alias_label (tree_aliases names.now tree.now) a.0 }
    ensures number { result.number ≡ label_number (alias_paths (tree_aliases names.now tree.now)) a.0 }
{
    tree.alias_label(a, names)
}

/// The alias with that label; `None` exactly where no alias has it. `names` are as for `alias_label`.
pub fn find_alias(tree: &Tree, names: &Names, text: &str) -> Option<AliasId>
    requires { IsOf names.now tree.now }
    ensures alias { option_map (λ a. a.0) result ≡ labelled_alias (tree_aliases names.now tree.now) text.now }
    ensures within { IfSome result (λ a. a.0 < length (aliases_of tree.now.nodes)) }
{
    tree.find_alias(names, text)
}
