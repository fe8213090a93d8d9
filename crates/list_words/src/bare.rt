//! The bare line of a word, which is read back to the word.
ghost use Rattle.std.specs.Prelude.{◌≡◌, ◌++◌, OnOk};
ghost use Rattle.spec_lines.specs.BareLine.{word_text, bare_way, bare_text, bare_line};
ghost use Rattle.list_words.specs.Listers.{IsOneRelease, machine};
ghost use Rattle.list_words.specs.Ways.{way_by, IsWayOf};

use crate::hex::push_hex;
use crate::lister::Lister;
use crate::written::push_written;
use insn_decode::Found;
use insn_tree::PathId;
use std::alloc::AllocError;

/// Appends a word as a number.
fn push_word(out: &mut Vec<u8>, word: u32) -> Result<(), AllocError>
    ensures { OnOk result (out.new.items ≡ out.old.items ++ word_text word) }
{
    out.extend_from_slice(b"word 0x")?;
    push_hex(out, u64::from(word), 8)
}

/// Appends a leaf or an alias, with the fields and the rest of a word.
fn push_path(
    out: &mut Vec<u8>,
    lister: &Lister<'_>,
    path: PathId,
    word: u32,
) -> Result<(), AllocError>
    requires release { IsOneRelease lister.now }
    requires way { IsWayOf lister.now.tree.now (way_by path) }
    ensures { OnOk result (out.new.items ≡ out.old.items ++ bare_way (machine lister.now) word (way_by path)) }
{
    match path {
        PathId::Leaf(_) => out.extend_from_slice(b"leaf ")?,
        PathId::Alias(_) => out.extend_from_slice(b"alias ")?,
    }
    push_written(out, lister, path, word)
}

/// Appends a lone leaf, or the alias that is preferred at it, with its fields and its rest; or else the word.
fn push_bare(out: &mut Vec<u8>, lister: &Lister<'_>, word: u32) -> Result<(), AllocError>
    requires { IsOneRelease lister.now }
    ensures { OnOk result (out.new.items ≡ out.old.items ++ bare_text (machine lister.now) word) }
{
    match lister.decide(word) {
        Found::Lone(leaf, _) => push_path(out, lister, lister.path_of(leaf, word), word),
        Found::Nothing | Found::Several => push_word(out, word),
    }
}

/// Appends the bare line of a word. Where memory runs out, a part of it may be there.
pub fn push_bare_line(out: &mut Vec<u8>, lister: &Lister<'_>, word: u32) -> Result<(), AllocError>
    requires { IsOneRelease lister.now }
    ensures { OnOk result (out.new.items ≡ out.old.items ++ bare_line (machine lister.now) word) }
{
    push_bare(out, lister, word)?;
    out.push(b'\n')?;
    Ok(())
}
