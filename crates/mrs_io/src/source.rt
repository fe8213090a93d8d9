//! A source of bytes.
ghost use Rattle.std.specs.Io.{ReadsAtMost};
ghost use Rattle.std.specs.Io.KnownBytes.{ReadConsumes};
ghost use Rattle.spec_io.specs.States.{Reading};
ghost use Rattle.mrs_io.specs.Causes.{HasCause};

use crate::Failed;

pub trait Source {
    /// The bytes that are left, None where the source does not tell them, and how often the source has failed. The count
    /// stops at the largest number of 64 bits.
    ghost reading: { Self → Reading };

    /// Moves the first bytes left into the front of `buf`, and answers how many.
    /// For a buffer that is not empty that is 0 exactly at the end.
    fn read(&mut self, buf: &mut [u8]) -> Result<usize, Failed>
        ensures bound { ReadsAtMost result buf.new }
        ensures bytes { ReadConsumes (reading self.old).left (reading self.new).left result buf.new }
        ensures cause { HasCause (reading self.old).faults (reading self.new).faults result };
}
