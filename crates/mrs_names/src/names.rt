//! The texts that are held, by their numbers and by their bytes.

use crate::fault::NameFault;
use crate::name_id::NameId;
use indexmap::IndexSet;
use std::alloc::Global;
use std::marker::Model;

/// How many names are held at most.
const MOST_NAMES: usize = 4_194_304;

/// Texts, each held once. A clause sees them as the list of their bytes, in which a text stands at its number.
#[derive(Drop)]
pub struct Names {
    texts: IndexSet<String>,
}

impl Model for Names {
    ghost use Rattle.std.specs.Prelude.{List, ℕ, ◌≤◌, length, map, string_bytes};
    ghost use Rattle.mrs_names.specs.Texts.{AreDistinct, AreNames};

    ghost Value = { List (List ℕ) };

    ghost view = { λ n. map string_bytes n.texts.keys };

    ghost invariant = { λ n. AreNames (map string_bytes n.texts.keys) };
}

impl Names {
    ghost use Rattle.std.specs.Prelude.{◌≡◌, ◌<◌, ◌↔◌, IsTrue, [], length, IfOk, OnOk, OnErr, option_map, slice_get, true, false};
    ghost use Rattle.mrs_names.specs.Texts.{place_of, with_name, is_refused, AreNames, IsExtended};

    /// No names.
    pub fn new(alloc: Global) -> Names
        ensures { result ≡ [] }
    {
        Names {
            texts: IndexSet::new(alloc),
        }
    }

    /// How many names are held. The numbers of names are those below it.
    pub fn len(&self) -> usize
        ensures count { result ≡ length self.now }
        ensures names { AreNames self.now }
    {
        self.texts.len()
    }

    /// Whether no name is held.
    pub fn is_empty(&self) -> bool
        ensures { IsTrue result ↔ (self.now ≡ []) }
    {
        self.texts.is_empty()
    }

    /// The number of a text. A new text takes the next number, and is refused where 4,194,304 are held.
    #[tactic(auto, using(crate::proofs::PlaceLaws::extends))]
    pub fn intern(&mut self, text: &str) -> Result<NameId, NameFault>
        ensures place { IfOk result (λ id. place_of text.now self.new ≡ Some id.0) }
        ensures names { OnOk result (self.new ≡ with_name text.now self.old) }
        ensures kept { IsExtended self.old self.new }
        ensures held { AreNames self.new }
        ensures room { OnOk result (is_refused text.now self.old ≡ false) }

        ensures full { result ≡ Err NameFault.Full → is_refused text.now self.old ≡ true }
        ensures unchanged { OnErr result (self.new ≡ self.old) }
    {
        if let Some(id) = self.find(text) {
            return Ok(id);
        }
        let number = self.texts.len();
        if number >= MOST_NAMES {
            return Err(NameFault::Full);
        }
        let copy = String::from_str(*self.texts.allocator(), text)?;
        let Ok(_) = self.texts.insert(copy) else {
            return Err(NameFault::NoMemory);
        };
        Ok(NameId(number as u32))
    }

    /// The text of a number that these names gave.
    pub fn text(&self, id: NameId) -> &str
        requires { id.0 < length self.now }
        ensures text { slice_get self.now id.0 ≡ Some result.now }
        ensures place { place_of result.now self.now ≡ Some id.0 }
    {
        match self.texts.get_index(id.0 as usize) {
            Some(text) => text.as_str(),
            None => unreachable!(),
        }
    }

    /// The number of a text, or `None` where the text is not held.
    #[tactic(auto, using(crate::proofs::PlaceLaws::position_is))]
    pub fn find(&self, text: &str) -> Option<NameId>
        ensures { option_map (λ id. id.0) result ≡ place_of text.now self.now }
    {
        match self.texts.get_index_of(text) {
            Some(index) => Some(NameId(index as u32)),
            None => None,
        }
    }
}
