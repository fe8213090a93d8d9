//! A stream, piece by piece.
ghost use Rattle.std.specs.Prelude.{◌≡◌, ◌≤◌, ◌+◌, ◌*◌, ◌<◌, ◌^◌, ℕ, length};
ghost use Rattle.spec_io.specs.States.{Reading, Writing};
ghost use Rattle.list_words.specs.Listers.{IsOneRelease};
ghost use Rattle.asm_stream.specs.Assembles.{Assembles};
ghost use Rattle.asm_stream.specs.Progress.{Progress};
ghost use Rattle.asm_stream.specs.Endings.{ended_by};

use crate::assembly::Assembly;
use crate::ended::Ended;
use crate::piece::{assemble_piece, finish};
use crate::stop::Stop;
use list_stream::{Look, look_past};
use list_words::Lister;
use mrs_io::{Sink, Source};
use std::alloc::Global;

/// How many bytes of the stream are read at once.
const PIECE: usize = 65_536;

/// How the assembly ends behind its last line.
fn ended(last: Result<(), Stop>) -> Ended
    ensures { result ≡ ended_by last }
{
    match last {
        Ok(()) => Ended::Done,
        Err(stop) => stop.ended(),
    }
}

/// Assembles the last piece of the stream within the limit, through a buffer that ends at the limit, and looks for a byte
/// past it.
fn assemble_last<S: Source, K: Sink>(
    assembly: &mut Assembly,
    lister: &Lister<'_>,
    input: &mut S,
    out: &mut K,
    buffer: &mut [u8],
) -> Ended
    requires release { IsOneRelease lister.now }
    requires number { assembly.old.number + length buffer.old < 2 ^ 64 }
    ensures { (r : Reading) (w : Writing) (size : ℕ) → Progress lister.now assembly.old r (S.reading input.old) w (K.writing out.old) size
        → r.faults ≤ (S.reading input.old).faults → w.faults ≤ (K.writing out.old).faults
        → Assembles lister.now (size + length buffer.old) r (S.reading input.new) w (K.writing out.new) result }
{
    let n = match assemble_piece(assembly, lister, input, out, buffer) {
        Ok(n) => n,
        Err(stop) => return stop.ended(),
    };
    if n < buffer.len() {
        return ended(finish(assembly, lister, out));
    }
    match look_past(input) {
        Look::End => ended(finish(assembly, lister, out)),
        Look::More => Ended::Limit,
        Look::Failed => Ended::ReadFault,
    }
}

/// Assembles the lines of at most `max` bytes of the stream through a buffer of one piece.
fn assemble_pieces<S: Source, K: Sink>(
    alloc: Global,
    lister: &Lister<'_>,
    max: u64,
    input: &mut S,
    out: &mut K,
    buffer: &mut [u8],
) -> Ended
    requires release { IsOneRelease lister.now }
    requires max { max ≤ 2 ^ 40 }
    requires room { length buffer.old ≡ 65536 }
    ensures { Assembles lister.now max (S.reading input.old) (S.reading input.new) (K.writing out.old) (K.writing out.new) result }
{
    let mut assembly = Assembly::new(alloc);
    for _k in 0..max / PIECE as u64 {
        let n = match assemble_piece(&mut assembly, lister, input, out, buffer) {
            Ok(n) => n,
            Err(stop) => return stop.ended(),
        };
        if n < PIECE {
            return ended(finish(&mut assembly, lister, out));
        }
    }
    let last = (max % PIECE as u64) as usize;
    assemble_last(&mut assembly, lister, input, out, &mut buffer[..last])
}

/// Assembles the lines of a stream, of which at most `max` bytes are taken: reads it to its end or to the limit, and one
/// byte past it, and writes the word of each line, little-endian, up to the first line that is refused. It takes memory for
/// one piece of the stream, its words, and one line.
pub fn assemble_stream<S: Source, K: Sink>(
    alloc: Global,
    lister: &Lister<'_>,
    max: u64,
    input: &mut S,
    out: &mut K,
) -> Ended
    requires release { IsOneRelease lister.now }
    requires max { max ≤ 2 ^ 40 }
    ensures { Assembles lister.now max (S.reading input.old) (S.reading input.new) (K.writing out.old) (K.writing out.new) result }
{
    match vec![in alloc; 0u8; PIECE] {
        Ok(mut buffer) => assemble_pieces(alloc, lister, max, input, out, buffer.as_mut_slice()),
        Err(_) => Ended::NoMemory,
    }
}
