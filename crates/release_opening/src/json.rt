//! Bytes are read as JSON.
ghost use Rattle.spec_run.specs.Opening.{json_in};
ghost use Rattle.release_opening.specs.Reads.{Parsed};

use crate::document::DocFault;
use crate::unread::Unread;
use serde_json::Value;
use std::alloc::Global;

/// The JSON value that bytes are read as.
pub(crate) fn read_json(alloc: Global, bytes: &[u8]) -> Result<Value, Unread>
    ensures { Parsed (json_in bytes.now) result }
{
    match Value::from_slice(alloc, bytes) {
        Ok(value) => Ok(value),
        Err(error) => {
            if error.is_memory() {
                Err(Unread::NoMemory)
            } else {
                Err(Unread::Refused(DocFault::Json))
            }
        }
    }
}
