//! The set of literals that a step's hints add to.

ghost use Rattle.std.specs.Prelude.{◌≡◌, ℤ, [], ◌∷◌, OnOk};
ghost use Rattle.spec_refutation.specs.Derivation.{has};
ghost use Rattle.feat_proof.specs.Members.{SameMembers};

use crate::faults::NoMemory;
use crate::literals::Lit;
use std::alloc::Global;
use std::collections::BTreeSet;
use std::marker::Model;

/// A set of literals, in which a look-up takes a time logarithmic in their number. Contracts see a
/// list with the same members.
#[derive(Drop)]
pub struct LiteralSet {
    numbers: BTreeSet<i32>,
}

impl Model for LiteralSet {
    ghost use Rattle.std.specs.Prelude.{List, ℤ};

    ghost Value = { List ℤ };

    ghost view = { λ s. s.numbers.keys };
}

impl LiteralSet {
    pub fn new(alloc: Global) -> LiteralSet
        ensures { result ≡ [] }
    {
        LiteralSet {
            numbers: BTreeSet::new(alloc),
        }
    }

    pub fn contains(&self, lit: Lit) -> bool
        ensures { result ≡ has self.now lit }
    {
        self.numbers.contains(&lit.0)
    }

    pub fn insert(&mut self, lit: Lit) -> Result<(), NoMemory>
        ensures { OnOk result (SameMembers self.new (lit ∷ self.old)) }
    {
        add(&mut self.numbers, lit.number())
    }
}

/// Adds a number to a set of numbers.
fn add(numbers: &mut BTreeSet<i32>, number: i32) -> Result<(), NoMemory>
    ensures { OnOk result (SameMembers numbers.new.keys (number ∷ numbers.old.keys)) }
{
    numbers.insert(number)?;
    Ok(())
}
