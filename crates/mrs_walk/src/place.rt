//! Places in a document.

ghost use Rattle.std.specs.Prelude.{◌≡◌, ◌++◌, OnOk, string_bytes};
ghost use Rattle.spec_walk.specs.Pointer.{escaped};

use crate::memory::NoMemory;
use crate::text::Text;
use std::alloc::Global;

/// A place in a document, as a chain of steps that are lent. Nothing is allocated until there is a fault.
#[derive(Clone, Copy)]
pub enum Place<'a> {
    /// The document itself.
    Root,
    /// The member of that name of the object at a place.
    Member(&'a Place<'a>, &'a str),
    /// The element of that number, from 0, of the array at a place.
    Element(&'a Place<'a>, usize),
}

impl<'a> Place<'a> {
    ghost use Rattle.std.specs.Prelude.{◌≡◌, ◌++◌, IfOk, OnOk, string_bytes};
    ghost use Rattle.mrs_walk.specs.Pointers.{pointer};

    /// The JSON Pointer (RFC 6901) of the place.
    pub fn to_text(&self, alloc: Global) -> Result<Text, NoMemory>
        ensures { IfOk result (λ t. t ≡ pointer self.now) }
    {
        let mut out = String::new(alloc);
        self.push_onto(&mut out)?;
        Ok(Text::from_string(out))
    }

    fn push_onto(&self, out: &mut String) -> Result<(), NoMemory>
        ensures { OnOk result (string_bytes out.new ≡ string_bytes out.old ++ pointer self.now) }
    {
        match self {
            Place::Root => Ok(()),
            Place::Member(owner, name) => {
                owner.push_onto(out)?;
                out.push('/')?;
                push_escaped(out, name)
            }
            Place::Element(owner, index) => {
                owner.push_onto(out)?;
                write!(out, "/{index}")?;
                Ok(())
            }
        }
    }
}

/// A member's name as a token of a Pointer: `~` is written `~0`, and `/` is written `~1`.
fn push_escaped(out: &mut String, name: &str) -> Result<(), NoMemory>
    ensures { OnOk result (string_bytes out.new ≡ string_bytes out.old ++ escaped name.now) }
{
    for c in name.chars() {
        match c {
            '~' => out.push_str("~0")?,
            '/' => out.push_str("~1")?,
            _ => out.push(c)?,
        }
    }
    Ok(())
}
