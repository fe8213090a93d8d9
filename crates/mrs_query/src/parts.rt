//! Writes a text that is put together of parts.
ghost use Rattle.std.specs.Prelude.{map};
ghost use Rattle.mrs_query.specs.Texts.{joined};
ghost use Rattle.mrs_query.specs.Wrote.{Wrote};

use mrs_io::{Failed, Sink, write_whole};

/// Writes the parts of a text in order. A sink that fails has taken a part of it.
pub(crate) fn write_parts<E: Sink>(sink: &mut E, parts: &[&[u8]]) -> Result<(), Failed>
    ensures { Wrote (E.writing sink.old) (E.writing sink.new) (joined (map (λ part. part.now) parts.now)) result }
{
    for part in parts {
        write_whole(sink, *part)?;
    }
    Ok(())
}
