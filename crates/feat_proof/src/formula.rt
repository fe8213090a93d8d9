//! Clauses with their number of variables.

ghost use Rattle.std.specs.Prelude.{◌≡◌};

use crate::clauses::Clause;
use std::marker::Model;

/// Clauses in conjunctive normal form: all of them are to hold. Contracts see the number of
/// variables and the list of clauses.
#[derive(Drop)]
pub struct Cnf {
    /// The number of variables, which are numbered from 1 to this.
    pub vars: u32,
    /// The clauses, in the order in which they are numbered.
    pub clauses: Vec<Clause>,
}

impl Model for Cnf {
    ghost use Rattle.std.specs.Prelude.{List, ℤ, ℕ};

    ghost Value = { ℕ × List (List ℤ) };

    ghost view = { λ f. (f.vars, f.clauses.items) };
}

impl Cnf {
    /// These clauses over this many variables. Takes no memory.
    pub fn from_parts(vars: u32, clauses: Vec<Clause>) -> Cnf
        ensures { result ≡ (vars, clauses.items) }
    {
        Cnf { vars, clauses }
    }

    /// Its parts, given back without taking memory.
    pub fn into_parts(self) -> (u32, Vec<Clause>)
        ensures { self ≡ (result.0, result.1.items) }
    {
        let Cnf { vars, clauses } = self;
        (vars, clauses)
    }

    /// The number of variables.
    pub fn vars(&self) -> u32
        ensures { result ≡ self.now.0 }
    {
        self.vars
    }

    /// The clauses.
    pub fn clauses(&self) -> &[Clause]
        ensures { result.now ≡ self.now.1 }
    {
        &self.clauses
    }
}
