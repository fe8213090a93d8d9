//! Pins by the numbers of their names.

use feat_model::Pin;
use insn_tree::NoMemory;
use mrs_command::Pins;
use mrs_names::Names;
use std::alloc::Global;

/// The names of pins, which have the first numbers, and the pins by these numbers.
#[derive(Drop)]
pub(crate) struct Pinned {
    pub names: Names,
    pub pins: Vec<Pin>,
}

impl Pinned {
    ghost use Rattle.std.specs.Prelude.{IfOk};
    ghost use Rattle.release_opening.specs.Pinned.{ArePinned};

    /// The names of pins are held, each once, in order.
    pub(crate) fn new(alloc: Global, list: Pins<'_>) -> Result<Pinned, NoMemory>
        ensures { IfOk result (ArePinned list.entry) }
    {
        let mut names = Names::new(alloc);
        let mut pins = Vec::new(alloc);
        for pin in list {
            // At most 4,096 words name one, so there is a number left.
            let Ok(name) = names.intern(pin.name) else {
                return Err(NoMemory);
            };
            pins.push(Pin { name, on: pin.on })?;
        }
        Ok(Pinned { names, pins })
    }
}
