//! Whole pieces: a piece that is written in as many calls as it takes, and a buffer that is filled.
ghost use Rattle.std.specs.Prelude.{◌≡◌, ◌+◌, ◌<◌, ◌≤◌, length, take, drop, IsOk, IfOk, OnOk, OnErr};
ghost use Rattle.std.specs.Io.{ReadsAtMost};
ghost use Rattle.std.specs.Io.KnownBytes.{Appends, Consumes, IsAtEnd, ReadConsumes, WriteAppends};
ghost use Rattle.mrs_io.specs.Causes.{HasCause};
ghost use Rattle.mrs_io.specs.Pieces.{AppendsPart, ConsumesPart};

use crate::{Failed, Sink, Source};

/// Writes the whole piece, in as many calls as the sink takes for it. After `Failed` a first part of it went out.
/// An empty piece makes no call.
pub fn write_whole<K: Sink>(sink: &mut K, bytes: &[u8]) -> Result<(), Failed>
    ensures whole { OnOk result (Appends (K.writing sink.old).taken (K.writing sink.new).taken bytes.now) }
    ensures part { OnErr result (AppendsPart (K.writing sink.old).taken (K.writing sink.new).taken bytes.now) }
    ensures cause { HasCause (K.writing sink.old).faults (K.writing sink.new).faults result }
    ensures empty { length bytes.now ≡ 0 → IsOk result × (sink.new ≡ sink.old) }
{
    let mut count = 0;
    while count < bytes.len() {
        let more = write_part(sink, bytes, count)?;
        count += more;
    }
    Ok(())
}

/// One write of what stands behind the first `count` bytes of the piece.
fn write_part<K: Sink>(sink: &mut K, bytes: &[u8], count: usize) -> Result<usize, Failed>
    requires { count < length bytes.now }
    ensures bound { IfOk result (λ more. (0 < more) × (count + more ≤ length bytes.now)) }
    ensures bytes { WriteAppends (K.writing sink.old).taken (K.writing sink.new).taken result (drop count bytes.now) }
    ensures cause { HasCause (K.writing sink.old).faults (K.writing sink.new).faults result }
{
    sink.write(&bytes[count..])
}

/// Reads until the buffer is full or the source ends, and answers how many bytes it read: fewer than
/// the buffer has places for only at the end. After `Failed` the bytes that were read are given up.
/// An empty buffer makes no call.
pub fn fill<S: Source>(source: &mut S, buf: &mut [u8]) -> Result<usize, Failed>
    ensures bound { ReadsAtMost result buf.new }
    ensures bytes { IfOk result (λ count. Consumes (S.reading source.old).left (S.reading source.new).left (take count buf.new)) }
    ensures end { IfOk result (λ count. count < length buf.new → IsAtEnd (S.reading source.new).left) }
    ensures part { OnErr result (ConsumesPart (S.reading source.old).left (S.reading source.new).left (length buf.new)) }
    ensures cause { HasCause (S.reading source.old).faults (S.reading source.new).faults result }
    ensures empty { length buf.new ≡ 0 → IsOk result × (source.new ≡ source.old) }
{
    let mut count = 0;
    while count < buf.len() {
        let more = read_part(source, buf, count)?;
        if more == 0 {
            return Ok(count);
        }
        count += more;
    }
    Ok(count)
}

/// One read into the part of the buffer behind the first `count` bytes, which stay.
fn read_part<S: Source>(source: &mut S, buf: &mut [u8], count: usize) -> Result<usize, Failed>
    requires { count ≤ length buf.old }
    ensures bound { IfOk result (λ more. count + more ≤ length buf.new) }
    ensures bytes { ReadConsumes (S.reading source.old).left (S.reading source.new).left result (drop count buf.new) }
    ensures cause { HasCause (S.reading source.old).faults (S.reading source.new).faults result }
    ensures front { take count buf.new ≡ take count buf.old }
{
    source.read(&mut buf[count..])
}
