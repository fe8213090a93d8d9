//! The clauses before a step.

ghost use Rattle.std.specs.Prelude.{◌≡◌, ◌++◌, map, option_map};
ghost use Rattle.spec_refutation.specs.Derivation.{clause_numbered};

use crate::clauses::Clause;
use crate::literals::Lit;
use crate::steps::Step;
use std::marker::Model;

/// The clauses and the steps before a step. Contracts see the list of their clauses.
#[derive(Drop)]
pub struct Known<'a> {
    clauses: &'a [Clause],
    steps: &'a [Step],
}

impl<'a> Model for Known<'a> {
    ghost use Rattle.std.specs.Prelude.{List, ℤ, ◌++◌, map};

    ghost Value = { List (List ℤ) };

    ghost view = { λ k. k.clauses.now ++ map (λ s. s.0) k.steps.now };
}

impl<'a> Known<'a> {
    pub fn new(clauses: &'a [Clause], steps: &'a [Step]) -> Known<'a>
        ensures { result ≡ clauses.entry.now ++ map (λ s. s.0) steps.entry.now }
    {
        Known { clauses, steps }
    }

    /// The literals of the clause of this number, counted from 1.
    pub fn clause(&self, number: u64) -> Option<&'a [Lit]>
        ensures { option_map (λ c. c.now) result ≡ clause_numbered self.now number }
    {
        let place = number.checked_sub(1)? as usize;
        let own = self.clauses.len();
        if place < own {
            return Some(self.clauses[place].literals());
        }
        let place = place - own;
        if place < self.steps.len() {
            return Some(self.steps[place].literals());
        }
        None
    }
}
