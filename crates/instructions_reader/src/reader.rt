//! Reads an Instructions document.

ghost use Rattle.serde_json.specs.View.{view};
ghost use Rattle.mrs_names.specs.Texts.{IsExtended};
ghost use Rattle.instructions_reader.specs.Release.{ReadsRelease};

use crate::sets::read_document;
use mrs_arena::Arena;
use mrs_names::Names;
use mrs_walk::{Here, ReadFault};
use schema_draft::Draft;
use serde_json::Value;
use std::alloc::Global;

/// The tree of the instruction set named `isa` in an Instructions document, whose names are held in `names`.
///
/// The document is read by the profile after AARCHMRS, Arm's architecture data as JSON. The fault is the first of
/// the walk over it.
///
/// Names that were held before keep their numbers, also where there is a fault.
pub fn read_instructions(
    alloc: Global,
    v: &Value,
    isa: &str,
    names: &mut Names,
) -> Result<Arena, ReadFault>
    ensures read { ReadsRelease isa.now (view v.now) names.old names.new result }
    ensures kept { IsExtended names.old names.new }
{
    let held = std::mem::replace(names, Names::new(alloc));
    let mut draft = Draft::new(alloc, held);
    let read = read_document(&Here::root(alloc, v), isa, &mut draft);
    let (held, arena) = draft.close();
    *names = held;
    match read {
        Ok(()) => Ok(arena),
        Err(fault) => Err(fault),
    }
}
