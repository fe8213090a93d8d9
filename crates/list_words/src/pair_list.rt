//! Pairs, of which there is room for as many as a line may have. They take no memory.

use mrs_names::NameId;
use std::marker::Model;

/// How many pairs a line has at most.
pub(crate) const MOST_PAIRS: usize = 256;

/// Names with numbers. A clause sees the list of them.
#[derive(Drop)]
pub(crate) struct PairList {
    room: [(NameId, u32); MOST_PAIRS],
    len: usize,
}

impl Model for PairList {
    ghost use Rattle.std.specs.Prelude.{List, ℕ, ◌≡◌, ◌≤◌, length, take};
    ghost use Rattle.mrs_names.specs.declared.name_id.NameId.{NameId};

    ghost Value = { List (NameId × ℕ) };

    ghost view = { λ p. take p.len p.room };

    ghost invariant = { λ p. (length p.room ≡ 256) × (p.len ≤ 256) };
}

impl PairList {
    ghost use Rattle.std.specs.Prelude.{◌≡◌, ◌≤◌, ◌<◌, ◌++◌, [], ◌∷◌, length};

    /// No pairs.
    pub(crate) fn new() -> PairList
        ensures { result ≡ [] }
    {
        PairList {
            room: [(NameId(0), 0); MOST_PAIRS],
            len: 0,
        }
    }

    /// How many there are.
    pub(crate) fn len(&self) -> usize
        ensures count { result ≡ length self.now }
        ensures few { result ≤ 256 }
    {
        self.len
    }

    /// A pair behind the others.
    pub(crate) fn push(&mut self, name: NameId, value: u32)
        requires { length self.old < 256 }
        ensures { self.new ≡ self.old ++ (name, value) ∷ [] }
    {
        self.room[self.len] = (name, value);
        self.len += 1;
    }

    /// The pairs.
    pub(crate) fn as_slice(&self) -> &[(NameId, u32)]
        ensures pairs { result.now ≡ self.now }
        ensures few { length result.now ≤ 256 }
    {
        &self.room[..self.len]
    }
}
