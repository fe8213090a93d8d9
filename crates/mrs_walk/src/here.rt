//! A value of a document with its place, from which readers go on.

ghost use Rattle.std.specs.Prelude.{◌≡◌, ◌^◌};
ghost use Rattle.serde_json.specs.View.{view};
ghost use Rattle.spec_walk.specs.Spot.{whole_number};

use crate::fault::{ReadFault, SchemaFault, Why};
use crate::place::Place;
use crate::text::Text;
use serde_json::Value;
use std::alloc::Global;

/// A value of a JSON document (RFC 8259) with its place. Nothing is allocated until there is a fault.
///
/// Each call asks one thing. Where it is not so, the answer is the fault that the call names, at this place if no
/// other is named, or `NoMemory` where none was left for the fault's texts.
#[derive(Drop)]
pub struct Here<'a> {
    pub alloc: Global,
    pub value: &'a Value,
    pub place: Place<'a>,
}

impl<'a> Here<'a> {
    ghost use Rattle.std.specs.Prelude.{◌≡◌, ◌<◌, ◌^◌, [], option_map, codes, length, Err, ⊤};
    ghost use Rattle.serde_json.specs.View.{view, items_view};
    ghost use Rattle.spec_walk.specs.Pointer.{element};
    ghost use Rattle.spec_walk.specs.Spot.{root, wrong, an_object, elements, text, whole_number, needed, number_below, member_at, below, exactly, kind_text};
    ghost use Rattle.mrs_walk.specs.Faults.{why_of};
    ghost use Rattle.mrs_walk.specs.Here.{spot_of};
    ghost use Rattle.mrs_walk.specs.Gives.{Gives};

    /// A whole document, whose place is the empty Pointer.
    pub fn root(alloc: Global, value: &'a Value) -> Here<'a>
        ensures { spot_of result ≡ root (view value.now) }
    {
        Here {
            alloc,
            value,
            place: Place::Root,
        }
    }

    /// The fault of that reason at this place.
    pub fn fault(&self, why: Why) -> ReadFault
        ensures { Gives {T = ⊤} (Err result) (wrong (spot_of self.now) (why_of why)) (λ x. x) }
    {
        match self.place.to_text(self.alloc) {
            Ok(path) => ReadFault::Schema(SchemaFault { path, why }),
            Err(_) => ReadFault::NoMemory,
        }
    }

    /// The value is an object; else `WrongShape`.
    pub fn object(&self) -> Result<(), ReadFault>
        ensures { Gives result (an_object (spot_of self.now)) (λ x. x) }
    {
        if !self.value.is_object() {
            return Err(self.fault(Why::WrongShape));
        }
        Ok(())
    }

    /// The elements of an array, in order; else `WrongShape`.
    pub fn elements(&self) -> Result<&'a [Value], ReadFault>
        ensures { Gives result (elements (spot_of self.now)) (λ vs. items_view vs.now) }
    {
        match self.value.as_array() {
            Some(list) => Ok(list.as_slice()),
            None => Err(self.fault(Why::WrongShape)),
        }
    }

    /// The element of number `index`, from 0, of an array that stands here.
    pub fn element<'h>(&'h self, index: usize, value: &'h Value) -> Here<'h>
        ensures { spot_of result ≡ record { at = element (spot_of self.now).at index; value = view value.now } }
    {
        Here {
            alloc: self.alloc,
            value,
            place: Place::Element(&self.place, index),
        }
    }

    /// The text of a string, as UTF-8; else `WrongShape`.
    pub fn text(&self) -> Result<&'a str, ReadFault>
        ensures { Gives result (text (spot_of self.now)) (λ t. t.now) }
    {
        match self.value.as_str() {
            Some(text) => Ok(text),
            None => Err(self.fault(Why::WrongShape)),
        }
    }

    /// A whole number below 2^32, as `serde_json` keeps one: `1.0` and `1e0` are none. Else `WrongShape`.
    pub fn number(&self) -> Result<u32, ReadFault>
        ensures { Gives result (number_below (2 ^ 32) (spot_of self.now)) (λ n. n) }
    {
        match word_number(self.value) {
            Some(number) => Ok(number),
            None => Err(self.fault(Why::WrongShape)),
        }
    }

    /// The member of that name, null being a value like another; else `Missing`.
    pub fn needed<'h>(&'h self, key: &'h str) -> Result<Here<'h>, ReadFault>
        ensures { Gives result (needed key.now (spot_of self.now)) spot_of }
    {
        match self.value.get(key) {
            Some(value) => Ok(self.below(key, value)),
            None => {
                let name = Text::from_str(self.alloc, key)?;
                Err(self.fault(Why::Missing(name)))
            }
        }
    }

    /// The member of that name, unless it is absent or null, which means the same.
    pub fn optional<'h>(&'h self, key: &'h str) -> Option<Here<'h>>
        ensures { option_map spot_of result ≡ member_at key.now (spot_of self.now) }
    {
        match self.value.get(key) {
            Some(value) if !value.is_null() => Some(self.below(key, value)),
            _ => None,
        }
    }

    /// The text of the member `_type` of an object; else `WrongShape` or `Missing`, or `WrongShape` at the member.
    pub fn kind(&self) -> Result<&str, ReadFault>
        ensures { Gives result (kind_text (spot_of self.now)) (λ t. t.now) }
    {
        self.object()?;
        let kind = self.needed("_type")?;
        kind.text()
    }

    /// The `kind` is that text; else `UnlistedKind`.
    pub fn exactly(&self, wanted: &str) -> Result<(), ReadFault>
        ensures { Gives result (exactly wanted.now (spot_of self.now)) (λ x. x) }
    {
        if wanted != self.kind()? {
            return Err(self.fault(Why::UnlistedKind));
        }
        Ok(())
    }

    fn below<'h>(&'h self, key: &'h str, value: &'h Value) -> Here<'h>
        ensures { spot_of result ≡ below key.now (spot_of self.now) (view value.now) }
    {
        Here {
            alloc: self.alloc,
            value,
            place: Place::Member(&self.place, key),
        }
    }
}

fn word_number(value: &Value) -> Option<u32>
    ensures { result ≡ whole_number (2 ^ 32) (view value.now) }
{
    match value.as_u64() {
        Some(number) if number < 1 << 32 => Some(number as u32),
        _ => None,
    }
}
