//! Steps of a log.

ghost use Rattle.std.specs.Prelude.{◌≡◌};

use crate::clauses::Clause;
use crate::literals::Lit;
use std::marker::Model;

/// A step: a clause, and the numbers of the clauses by which it follows, counted from 1, steps going on
/// after the clauses. Contracts see the pair of its literals and its hints.
#[derive(Drop)]
pub struct Step {
    /// The clause that the step adds.
    pub clause: Clause,
    /// The numbers of the clauses by which it follows, in the order in which they are taken.
    pub hints: Vec<u64>,
}

impl Model for Step {
    ghost use Rattle.std.specs.Prelude.{List, ℤ, ℕ};

    ghost Value = { List ℤ × List ℕ };

    ghost view = { λ s. (s.clause, s.hints.items) };
}

impl Step {
    /// A step of this clause with these hints. Takes no memory.
    pub fn from_parts(clause: Clause, hints: Vec<u64>) -> Step
        ensures { result ≡ (clause, hints.items) }
    {
        Step { clause, hints }
    }

    /// Its parts, given back without taking memory.
    pub fn into_parts(self) -> (Clause, Vec<u64>)
        ensures { self ≡ (result.0, result.1.items) }
    {
        let Step { clause, hints } = self;
        (clause, hints)
    }

    /// The literals of its clause.
    pub fn literals(&self) -> &[Lit]
        ensures { result.now ≡ self.now.0 }
    {
        self.clause.literals()
    }

    /// Its hints.
    pub fn hints(&self) -> &[u64]
        ensures { result.now ≡ self.now.1 }
    {
        &self.hints
    }
}
