//! Labels of leaves and of aliases.

ghost use Rattle.std.specs.Prelude.{◌≡◌, ◌++◌, length, take, OnOk, OnErr};
ghost use Rattle.insn_tree.specs.Trees.{label_text};

use itoa::Buffer;
use std::alloc::AllocError;

/// The label of a leaf, or of an alias: its name alone, or, where another leaf, or another alias, has the name, the name, `#` and its number.
#[derive(Clone, Copy, PartialEq, Eq, Debug)]
pub struct LabelRef<'a> {
    pub name: &'a str,
    pub number: Option<u32>,
}

impl<'a> LabelRef<'a> {
    /// Puts the label's text behind what was written, which stays in front where memory runs out.
    pub fn push_onto(&self, out: &mut Vec<u8>) -> Result<(), AllocError>
        ensures text { OnOk result (out.new.items ≡ out.old.items ++ label_text self.now) }
        ensures front { OnErr result (take (length out.old.items) out.new.items ≡ out.old.items) }
    {
        out.extend_from_slice(self.name.as_bytes())?;
        if let Some(number) = self.number {
            out.push(b'#')?;
            out.extend_from_slice(Buffer::new().format(number).as_bytes())?;
        }
        Ok(())
    }
}
