//! The top call.
ghost use Rattle.std.specs.Prelude.{◌≡◌, ℕ, List, map, string_bytes, []};
ghost use Rattle.spec_run.specs.End.{message, IsEarly, IsUsage};
ghost use Rattle.spec_run.specs.Answers.{Performs};
ghost use Rattle.mrs_query.specs.End.{end_of};
ghost use Rattle.mrs_query.specs.Runs.{HasText, told_as, Runs, Lists};

use crate::Status;
use crate::commands::fulfil;
use crate::ended::Ended;
use crate::message::tell;
use crate::refused::refused;
use mrs_command::read_request;
use mrs_io::{Shelf, Sink, Source};
use std::alloc::Global;
use std::thread::Threads;

/// Does what the words of the command line say, and answers how that ended. The documents come from the shelf, the
/// stream from `input`; lines go to `out`.
fn perform<V: Shelf, S: Source, K: Sink>(
    alloc: Global,
    words: &[String],
    shelf: &mut V,
    input: &mut S,
    out: &mut K,
) -> Ended
    ensures performs { Performs (map string_bytes words.now) (record {
      shelf = V.shelving shelf.old;
      shelf_after = V.shelving shelf.new;
      input = S.reading input.old;
      input_after = S.reading input.new;
      out = K.writing out.old;
      out_after = K.writing out.new;
    }) (told_as result) }
    ensures text { HasText result.status result.text.items }
    ensures early { IsEarly (end_of result.status []) → (input.new ≡ input.old) × (out.new ≡ out.old) }
    ensures misused { IsUsage (end_of result.status []) → shelf.new ≡ shelf.old }
{
    let asked = match read_request(words) {
        Ok(asked) => asked,
        Err(bad) => return Ended::plainly(alloc, Status::Usage { place: bad.place }),
    };
    match fulfil(alloc, asked, shelf, input, out) {
        Ok(ended) => ended,
        Err(error) => refused(alloc, error),
    }
}

/// Does all that the program does: reads the words of the command line, the documents that they name from the shelf
/// and the stream from `input`, writes lines to `out` and to `err` one line on what went wrong, or a log where no
/// configuration fits, and answers how the run ended. Words of Arm A64 are 32 bits wide and little-endian.
///
/// The status has its cause in `Runs`: the first of the words, the documents, the pins, the label and the stream that stops
/// the run decides. `NoMemory` may come in place of any answer but `Usage`.
pub fn run<R: Threads + Sync, V: Shelf, S: Source, K: Sink, E: Sink>(
    rt: &R,
    alloc: Global,
    words: &[String],
    shelf: &mut V,
    input: &mut S,
    out: &mut K,
    err: &mut E,
) -> Status
    ensures answers { Runs (map string_bytes words.now) (record {
      shelf = V.shelving shelf.old;
      shelf_after = V.shelving shelf.new;
      input = S.reading input.old;
      input_after = S.reading input.new;
      out = K.writing out.old;
      out_after = K.writing out.new;
    }) (E.writing err.old) (E.writing err.new) result }
    // The listing theorem, for `list` in full lines.
    ensures listing { Lists (map string_bytes words.now) (record {
      shelf = V.shelving shelf.old;
      shelf_after = V.shelving shelf.new;
      input = S.reading input.old;
      input_after = S.reading input.new;
      out = K.writing out.old;
      out_after = K.writing out.new;
    }) (E.writing err.old) (E.writing err.new) result }
    // Before the stream nothing is read from it and nothing goes out; refused words do not touch the shelf.
    ensures early { IsEarly (end_of result []) → (input.new ≡ input.old) × (out.new ≡ out.old) }
    ensures misused { IsUsage (end_of result []) → shelf.new ≡ shelf.old }
    // Where there is nothing to say, `err` is not touched.
    ensures quiet { (text : List ℕ) → HasText result text → message (end_of result text) ≡ [] → err.new ≡ err.old }
{
    let _ = rt;
    let ended = perform(alloc, words, shelf, input, out);
    tell(err, &ended);
    ended.status
}
