//! Clauses.

ghost use Rattle.std.specs.Prelude.{◌≡◌};

use crate::literals::Lit;
use std::marker::Model;

/// A clause: it is true where one of its literals is, so the empty one never is. Contracts see the
/// list of its literals.
#[derive(Drop)]
pub struct Clause {
    /// The literals, in the order in which they are written.
    pub lits: Vec<Lit>,
}

impl Model for Clause {
    ghost use Rattle.std.specs.Prelude.{List, ℤ};

    ghost Value = { List ℤ };

    ghost view = { λ c. c.lits.items };
}

impl Clause {
    /// The clause of these literals. Takes no memory.
    pub fn from_vec(lits: Vec<Lit>) -> Clause
        ensures { result ≡ lits.items }
    {
        Clause { lits }
    }

    /// Its literals, given back without taking memory.
    pub fn into_vec(self) -> Vec<Lit>
        ensures { result.items ≡ self }
    {
        let Clause { lits } = self;
        lits
    }

    /// Its literals.
    pub fn literals(&self) -> &[Lit]
        ensures { result.now ≡ self.now }
    {
        &self.lits
    }
}
