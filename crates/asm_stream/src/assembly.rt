//! Lines, one after another, and what they come to.
ghost use Rattle.std.specs.Prelude.{◌≡◌, ◌+◌, ◌++◌, ◌<◌, ◌^◌, [], ◌∷◌, OnOk, length};
ghost use Rattle.list_words.specs.Listers.{IsOneRelease, machine};
ghost use Rattle.asm_stream.specs.Lines.{LineGives, HasNoEnd};
ghost use Rattle.asm_stream.specs.SoFar.{Takes};

use crate::stop::Stop;
use list_words::{LineFault, LineWhy, Lister, read_bare};
use memchr::memchr;
use std::alloc::Global;

/// The greatest length of a line in bytes, without its LF.
const LINE_LIMIT: usize = 65_536;

/// What the lines so far come to.
#[derive(Drop)]
pub(crate) struct Assembly {
    /// The number of the line that is left open, from 1.
    pub number: u64,
    /// The bytes of that line so far.
    pub left: Vec<u8>,
    /// The words that have not gone out yet, as bytes.
    pub words: Vec<u8>,
}

impl Assembly {
    /// No line yet.
    pub(crate) fn new(alloc: Global) -> Assembly
        ensures number { result.number ≡ 1 }
        ensures left { result.left.items ≡ [] }
        ensures words { result.words.items ≡ [] }
    {
        Assembly {
            number: 1,
            left: Vec::new(alloc),
            words: Vec::new(alloc),
        }
    }
}

/// Appends the word of a line that has this number, or nothing where the line is empty.
pub(crate) fn push_word(
    words: &mut Vec<u8>,
    lister: &Lister<'_>,
    number: u64,
    line: &[u8],
) -> Result<(), Stop>
    requires { IsOneRelease lister.now }
    ensures { LineGives lister.now number line.now words.old.items words.new.items result }
{
    if line.is_empty() {
        return Ok(());
    }
    match read_bare(lister, line) {
        Ok(word) => {
            words.extend_from_slice(&word.to_le_bytes())?;
            Ok(())
        }
        Err(fault) => Err(Stop::Line { number, fault }),
    }
}

/// Appends the word of the line that is left open, which ends with these bytes, and leaves no byte of it.
fn push_left(assembly: &mut Assembly, lister: &Lister<'_>, line: &[u8]) -> Result<(), Stop>
    requires { IsOneRelease lister.now }
    ensures gives { LineGives lister.now assembly.old.number (assembly.old.left.items ++ line.now) assembly.old.words.items assembly.new.words.items result }
    ensures number { assembly.new.number ≡ assembly.old.number }
    ensures left { OnOk result (assembly.new.left.items ≡ []) }
{
    if assembly.left.is_empty() {
        return push_word(&mut assembly.words, lister, assembly.number, line);
    }
    assembly.left.extend_from_slice(line)?;
    push_word(&mut assembly.words, lister, assembly.number, &assembly.left)?;
    assembly.left.clear();
    Ok(())
}

/// Ends the line that is left open: these bytes follow, and then an LF.
fn end_line(assembly: &mut Assembly, lister: &Lister<'_>, line: &[u8]) -> Result<(), Stop>
    requires release { IsOneRelease lister.now }
    requires end { HasNoEnd line.now }
    requires number { assembly.old.number + 1 < 2 ^ 64 }
    ensures ends { Takes lister.now assembly.old assembly.new (line.now ++ 10 ∷ []) result }
    ensures number { OnOk result (assembly.new.number ≡ assembly.old.number + 1) }
{
    push_left(assembly, lister, line)?;
    assembly.number += 1;
    Ok(())
}

/// Goes on with the line that is left open: these bytes follow. It is refused as soon as it is too long.
fn go_on(assembly: &mut Assembly, lister: &Lister<'_>, bytes: &[u8]) -> Result<(), Stop>
    requires { HasNoEnd bytes.now }
    ensures { Takes lister.now assembly.old assembly.new bytes.now result }
{
    let _ = lister;
    assembly.left.extend_from_slice(bytes)?;
    if assembly.left.len() > LINE_LIMIT {
        return Err(Stop::Line {
            number: assembly.number,
            fault: LineFault {
                at: LINE_LIMIT as u32,
                why: LineWhy::Long,
            },
        });
    }
    Ok(())
}

/// Takes more bytes of the stream: the words of the lines that they end are appended.
pub(crate) fn take_bytes(
    assembly: &mut Assembly,
    lister: &Lister<'_>,
    bytes: &[u8],
) -> Result<(), Stop>
    requires release { IsOneRelease lister.now }
    requires number { assembly.old.number + length bytes.now < 2 ^ 64 }
    ensures { Takes lister.now assembly.old assembly.new bytes.now result }
{
    let mut rest = bytes;
    while let Some(end) = memchr(b'\n', rest) {
        end_line(assembly, lister, &rest[..end])?;
        rest = &rest[end + 1..];
    }
    go_on(assembly, lister, rest)
}
