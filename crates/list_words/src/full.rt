//! The full line of a word: its offset, the word, and the leaves at which it is found.
ghost use Rattle.std.specs.Prelude.{◌≡◌, ◌++◌, ◌<◌, [], ◌∷◌, length, OnOk, flat_map};
ghost use Rattle.spec_decode.specs.Found.{found};
ghost use Rattle.spec_lines.specs.FullLine.{full_line, leaves_text, candidate, lone_text, verdict_text};
ghost use Rattle.ast_eval.specs.Views.{truth_of};
ghost use Rattle.list_words.specs.Listers.{IsOneRelease, machine};

use crate::hex::push_hex;
use crate::label::push_label;
use crate::lister::Lister;
use crate::lone_leaf::push_lone_leaf;
use ast_eval::Truth;
use insn_decode::Found;
use insn_tree::LeafId;
use std::alloc::AllocError;

/// The word before the label of a lone leaf.
fn lone_word(verdict: Truth) -> &'static [u8]
    ensures { result.now ≡ lone_text (truth_of verdict) }
{
    match verdict {
        Truth::Yes => b"one ",
        Truth::Open => b"open ",
        Truth::No => b"none ",
    }
}

/// The word behind the label of one of several leaves.
fn verdict_word(verdict: Truth) -> &'static [u8]
    ensures { result.now ≡ verdict_text (truth_of verdict) }
{
    match verdict {
        Truth::Yes => b" yes",
        Truth::Open => b" open",
        Truth::No => b" no",
    }
}

/// Appends one of several leaves, with its verdict.
fn push_candidate(
    out: &mut Vec<u8>,
    lister: &Lister<'_>,
    leaf: LeafId,
    verdict: Truth,
) -> Result<(), AllocError>
    requires release { IsOneRelease lister.now }
    requires leaf { leaf.0 < length (machine lister.now).paths }
    ensures { OnOk result (out.new.items ≡ out.old.items ++ candidate (machine lister.now).paths (record { leaf = leaf.0; verdict = truth_of verdict })) }
{
    out.push(b' ')?;
    push_label(out, lister.tree, lister.names, leaf)?;
    out.extend_from_slice(verdict_word(verdict))?;
    Ok(())
}

/// Appends the leaves at which a word is found, each with its verdict.
fn push_candidates(out: &mut Vec<u8>, lister: &Lister<'_>, word: u32) -> Result<(), AllocError>
    requires { IsOneRelease lister.now }
    ensures { OnOk result (out.new.items ≡ out.old.items ++ flat_map (candidate (machine lister.now).paths) (found (machine lister.now).paths (machine lister.now).configuration word)) }
{
    for (leaf, verdict) in lister.candidates(word) {
        push_candidate(out, lister, leaf, verdict)?;
    }
    Ok(())
}

/// Appends a lone leaf, with its fields and its rest.
fn push_lone(
    out: &mut Vec<u8>,
    lister: &Lister<'_>,
    leaf: LeafId,
    verdict: Truth,
    word: u32,
) -> Result<(), AllocError>
    requires release { IsOneRelease lister.now }
    requires leaf { leaf.0 < length (machine lister.now).paths }
    ensures { OnOk result (out.new.items ≡ out.old.items ++ leaves_text (machine lister.now) word (record { leaf = leaf.0; verdict = truth_of verdict } ∷ [])) }
{
    out.extend_from_slice(lone_word(verdict))?;
    push_lone_leaf(out, lister, leaf, word)
}

/// Appends what a word is: no leaf, one, or several.
fn push_leaves(out: &mut Vec<u8>, lister: &Lister<'_>, word: u32) -> Result<(), AllocError>
    requires { IsOneRelease lister.now }
    ensures { OnOk result (out.new.items ≡ out.old.items ++ leaves_text (machine lister.now) word (found (machine lister.now).paths (machine lister.now).configuration word)) }
{
    match lister.decide(word) {
        Found::Nothing => {
            out.extend_from_slice(b"none")?;
            Ok(())
        }
        Found::Lone(leaf, verdict) => push_lone(out, lister, leaf, verdict, word),
        Found::Several => {
            out.extend_from_slice(b"many")?;
            push_candidates(out, lister, word)
        }
    }
}

/// Appends the full line of a word that stands at an offset of the stream. Where memory runs out, a part of it may be there.
pub fn push_line(
    out: &mut Vec<u8>,
    lister: &Lister<'_>,
    offset: u64,
    word: u32,
) -> Result<(), AllocError>
    requires { IsOneRelease lister.now }
    ensures { OnOk result (out.new.items ≡ out.old.items ++ full_line (machine lister.now) offset word) }
{
    push_hex(out, offset, 8)?;
    out.push(b' ')?;
    push_hex(out, u64::from(word), 8)?;
    out.push(b' ')?;
    push_leaves(out, lister, word)?;
    out.push(b'\n')?;
    Ok(())
}
