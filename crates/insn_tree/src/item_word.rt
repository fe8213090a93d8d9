//! The bits of the word that an item fixes.

ghost use Rattle.std.specs.Prelude.{◌≡◌, IfSome, None, map, option_map};
ghost use Rattle.spec_instructions.specs.Fields.{word_digits};
ghost use Rattle.bit_pattern.specs.Views.{digits_of};
ghost use Rattle.mrs_arena.specs.Flat.{with_text};
ghost use Rattle.mrs_arena.specs.Views.{flat_item};
ghost use Rattle.insn_tree.specs.Upward.{onto};
ghost use Rattle.insn_tree.specs.Words.{join_item};

use bit_pattern::Pattern;
use mrs_arena::Item;

/// A pattern that fixes no bit of the word.
pub(crate) const FREE: Pattern = Pattern {
    width: 32,
    mask: 0,
    value: 0,
};

/// The digits that an item fixes, at their place among the 32 of the word.
fn word_pattern(it: &Item) -> Pattern
    ensures digits { digits_of result ≡ word_digits (with_text None (flat_item it.now)) }
    ensures width { result.width ≡ 32 }
{
    let fixed = it.fixed();
    Pattern {
        width: 32,
        mask: fixed.mask << it.start,
        value: fixed.value << it.start,
    }
}

/// A pattern of the word with what an item fixes; `None` where they clash.
fn joined_with(deeper: Option<Pattern>, it: &Item) -> Option<Pattern>
    requires { IfSome deeper (λ p. p.width ≡ 32) }
    ensures digits { option_map digits_of result ≡ join_item (flat_item it.now) (option_map digits_of deeper) }
    ensures width { IfSome result (λ p. p.width ≡ 32) }
{
    word_pattern(it).joined(&deeper?)
}

/// A pattern of the word with what a node's items fix.
pub(crate) fn joined_with_all(deeper: Option<Pattern>, items: &[Item]) -> Option<Pattern>
    requires { IfSome deeper (λ p. p.width ≡ 32) }
    ensures digits { option_map digits_of result ≡ onto join_item (map flat_item items.now) (option_map digits_of deeper) }
    ensures width { IfSome result (λ p. p.width ≡ 32) }
{
    let mut joined = deeper;
    'items: for i in (0..items.len()).rev() {
        joined = joined_with(joined, &items[i]);
    }
    joined
}
