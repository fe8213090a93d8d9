//! Reads lines of assembly.

ghost use Rattle.std.specs.Prelude.{◌≡◌, ℕ, List, Err};
ghost use Rattle.spec_lines.specs.Parsed as spec;
ghost use Rattle.spec_lines.specs.Given.{nothing, given_behind};
ghost use Rattle.insn_tree.specs.Trees.{TreeParts};
ghost use Rattle.list_words.specs.Faults.{Answers};
ghost use Rattle.list_words.specs.Listers.{IsOneRelease, machine};
ghost use Rattle.list_words.specs.Ways.{way_by, IsWayOf};

use crate::encoding::encode_given;
use crate::given::{Given, read_given};
use crate::line_fault::{LineFault, LineWhy};
use crate::lister::Lister;
use crate::pair::NUMBER_BOUND;
use crate::tokens::{MOST_BYTES, Tokens};
use insn_tree::PathId;
use number_text::number_below;

/// A line that is refused at a place, as no word.
fn refused(at: u32, why: LineWhy) -> Result<u32, LineFault>
    ensures { result ≡ Err (record { at = at; why = why }) }
{
    Err(LineFault { at, why })
}

/// What a line says, given without its LF: the word, or the first reason why it says none.
///
/// A line is `word NUMBER`, or `leaf LABEL` or `alias LABEL` with a `NAME=NUMBER` for each shown field of the leaf or the alias,
/// and maybe `rest=NUMBER`, in any order. Spaces stand between these, and may stand around them. It has at most 65,536 bytes. Nothing is taken of memory.
pub fn read_bare(l: &Lister<'_>, text: &[u8]) -> Result<u32, LineFault>
    requires { IsOneRelease l.now }
    ensures { Answers l.now.names.now l.now.tree.now result (spec.parsed (machine l.now) text.now) }
{
    if text.len() > MOST_BYTES {
        return refused(MOST_BYTES as u32, LineWhy::Long);
    }
    let end = text.len() as u32;
    let mut tokens = Tokens::new(text);
    let Some(head) = tokens.next() else {
        return refused(end, LineWhy::Head);
    };
    if head.text == b"word".as_slice() {
        return read_word(end, tokens);
    }
    if head.text == b"leaf".as_slice() {
        return read_leaf(l, end, tokens);
    }
    if head.text == b"alias".as_slice() {
        return read_alias(l, end, tokens);
    }
    refused(head.at, LineWhy::Head)
}

/// What the tokens behind `word` say in a line that ends at `end`.
fn read_word(end: u32, mut tokens: Tokens<'_>) -> Result<u32, LineFault>
    ensures { (names : List (List ℕ)) (tree : TreeParts) → Answers names tree result (spec.of_word end tokens.entry) }
{
    let Some(number) = tokens.next() else {
        return refused(end, LineWhy::Pair);
    };
    let Some(w) = number_below(number.text, NUMBER_BOUND) else {
        return refused(number.at, LineWhy::Pair);
    };
    match tokens.next() {
        Some(more) => refused(more.at, LineWhy::Pair),
        None => Ok(w as u32),
    }
}

/// What the tokens behind `leaf` say in a line that ends at `end`.
fn read_leaf(l: &Lister<'_>, end: u32, mut tokens: Tokens<'_>) -> Result<u32, LineFault>
    requires { IsOneRelease l.now }
    ensures { Answers l.now.names.now l.now.tree.now result (spec.of_leaf (machine l.now) end tokens.entry) }
{
    let Some(label) = tokens.next() else {
        return refused(end, LineWhy::Label);
    };
    let Some(leaf) = l.tree.find_label_bytes(l.names, label.text) else {
        return refused(label.at, LineWhy::Label);
    };
    read_fields(l, label.at, PathId::Leaf(leaf), tokens)
}

/// What the tokens behind `alias` say in a line that ends at `end`.
fn read_alias(l: &Lister<'_>, end: u32, mut tokens: Tokens<'_>) -> Result<u32, LineFault>
    requires { IsOneRelease l.now }
    ensures { Answers l.now.names.now l.now.tree.now result (spec.of_alias (machine l.now) end tokens.entry) }
{
    let Some(label) = tokens.next() else {
        return refused(end, LineWhy::Label);
    };
    let Some(alias) = l.tree.find_alias_bytes(l.names, label.text) else {
        return refused(label.at, LineWhy::Label);
    };
    read_fields(l, label.at, PathId::Alias(alias), tokens)
}

/// What the tokens behind the label of a leaf or an alias say, which stands at `at`.
fn read_fields(l: &Lister<'_>, at: u32, path: PathId, tokens: Tokens<'_>) -> Result<u32, LineFault>
    requires release { IsOneRelease l.now }
    requires way { IsWayOf l.now.tree.now (way_by path) }
    ensures { Answers l.now.names.now l.now.tree.now result (spec.of_given (machine l.now) at (way_by path) (given_behind nothing tokens.entry)) }
{
    let mut given = Given::nothing();
    read_given(l.names, l.fields(path), tokens, &mut given)?;
    match encode_given(l, path, &given) {
        Ok(w) => Ok(w),
        Err(fault) => refused(at, LineWhy::Encode(fault)),
    }
}
