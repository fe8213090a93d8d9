//! A sink of bytes.
ghost use Rattle.std.specs.Prelude.{◌<◌, length, IfOk};
ghost use Rattle.std.specs.Io.{WritesAtMost};
ghost use Rattle.std.specs.Io.KnownBytes.{WriteAppends};
ghost use Rattle.spec_io.specs.States.{Writing};
ghost use Rattle.mrs_io.specs.Causes.{HasCause};

use crate::Failed;

pub trait Sink {
    /// The bytes that it has taken, None where the sink does not tell them, and how often the sink has failed. The count
    /// stops at the largest number of 64 bits.
    ghost writing: { Self → Writing };

    /// Takes the first bytes of the piece, and answers how many: at least one, unless the piece is empty.
    fn write(&mut self, bytes: &[u8]) -> Result<usize, Failed>
        ensures bound { WritesAtMost result bytes.now }
        ensures some { 0 < length bytes.now → IfOk result (λ count. 0 < count) }
        ensures bytes { WriteAppends (writing self.old).taken (writing self.new).taken result bytes.now }
        ensures cause { HasCause (writing self.old).faults (writing self.new).faults result };
}
