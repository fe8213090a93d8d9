//! The lines of single words, as texts of their own.
ghost use Rattle.std.specs.Prelude.{◌≡◌, IfOk};
ghost use Rattle.spec_lines.specs.FullLine.{full_line};
ghost use Rattle.spec_lines.specs.BareLine.{bare_line};
ghost use Rattle.list_words.specs.Listers.{IsOneRelease, machine};

use crate::bare::push_bare_line;
use crate::full::push_line;
use crate::lister::Lister;
use insn_tree::NoMemory;
use std::alloc::Global;

/// The full line of a word that stands at an offset of the stream, with its LF.
pub fn line(alloc: Global, lister: &Lister<'_>, offset: u64, w: u32) -> Result<Vec<u8>, NoMemory>
    requires { IsOneRelease lister.now }
    ensures { IfOk result (λ text. text.items ≡ full_line (machine lister.now) offset w) }
{
    let mut text = Vec::new(alloc);
    push_line(&mut text, lister, offset, w)?;
    Ok(text)
}

/// The bare line of a word, with its LF.
pub fn bare_line(alloc: Global, lister: &Lister<'_>, w: u32) -> Result<Vec<u8>, NoMemory>
    requires { IsOneRelease lister.now }
    ensures { IfOk result (λ text. text.items ≡ bare_line (machine lister.now) w) }
{
    let mut text = Vec::new(alloc);
    push_bare_line(&mut text, lister, w)?;
    Ok(text)
}
