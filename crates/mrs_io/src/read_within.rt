//! A source that is read to its end, within a limit.
ghost use Rattle.std.specs.Prelude.{◌≡◌, ◌+◌, ◌≤◌, length, IfOk, OnOk, IsErrOf};
ghost use Rattle.std.specs.Io.KnownBytes.{Consumes, IsAtEnd};
ghost use Rattle.spec_io.specs.Faults.{Rose};
ghost use Rattle.mrs_io.specs.Pieces.{ConsumesMany};

use crate::{FetchFault, Source};
use std::alloc::Global;

/// How many bytes one read asks for at most.
const PIECE: usize = 65_536;

/// All bytes of the source, if they are no more than the limit. It reads no more than the limit and one, in large pieces.
pub fn read_within<S: Source>(
    alloc: Global,
    source: &mut S,
    limit: u64,
) -> Result<Vec<u8>, FetchFault>
    ensures whole { IfOk result (λ v. Consumes (S.reading source.old).left (S.reading source.new).left v.items) }
    ensures end { OnOk result (IsAtEnd (S.reading source.new).left) }
    ensures within { IfOk result (λ v. length v.items ≤ limit) }
    ensures longer { IsErrOf result FetchFault.TooLong → ConsumesMany (S.reading source.old).left (S.reading source.new).left (limit + 1) }
    ensures failed { IsErrOf result FetchFault.Failed → Rose (S.reading source.old).faults (S.reading source.new).faults }
    ensures later { (S.reading source.old).faults ≤ (S.reading source.new).faults }
{
    let mut piece = [0u8; PIECE];
    let mut bytes = Vec::new(alloc);
    loop {
        let room = (limit - bytes.len() as u64).min(PIECE as u64 - 1) as usize + 1;
        let Ok(count) = source.read(&mut piece[..room]) else {
            return Err(FetchFault::Failed);
        };
        if count == 0 {
            return Ok(bytes);
        }
        if limit < (bytes.len() + count) as u64 {
            return Err(FetchFault::TooLong);
        }
        bytes.extend_from_slice(&piece[..count])?;
    }
}
