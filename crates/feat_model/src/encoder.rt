//! Clauses of formulas.

ghost use Rattle.std.specs.Prelude.{◌≡◌, ◌+◌, ◌<◌, ◌≤◌, ◌++◌, [], ◌∷◌, pos, OnOk, IfOk};
ghost use Rattle.spec_features.specs.Formula.{Conjunction, Equivalence, Constant};
ghost use Rattle.spec_features.specs.Clauses.{encoded, table, either_clauses};
ghost use Rattle.feat_model.specs.Views.{connective_of, formula_of};
ghost use Rattle.feat_model.specs.Encodes.{Encodes, HasRoom};

use crate::connective::Connective;
use crate::formula::Formula;
use feat_proof::{Clause, Lit, NoMemory};
use std::alloc::Global;

/// Clauses that were made, and the greatest variable up to now.
#[derive(Drop)]
pub(crate) struct Encoder {
    pub clauses: Vec<Clause>,
    pub last: u32,
}

/// The literal of a variable.
pub(crate) fn positive(variable: u32) -> Lit
    requires some { 0 < variable }
    requires few { variable ≤ 2147483647 }
    ensures { result ≡ pos variable }
{
    Lit::new(variable as i32)
}

impl Encoder {
    /// Puts the clause of these literals.
    pub fn push(&mut self, alloc: Global, literals: &[Lit]) -> Result<(), NoMemory>
        ensures last { self.new.last ≡ self.old.last }
        ensures put { OnOk result (self.new.clauses.items ≡ self.old.clauses.items ++ literals.now ∷ []) }
    {
        let mut clause = Vec::new(alloc);
        clause.extend_from_slice(literals)?;
        self.clauses.push(Clause::from_vec(clause))?;
        Ok(())
    }

    /// The next variable.
    fn take(&mut self) -> Lit
        requires { self.old.last < 2147483647 }
        ensures last { self.new.last ≡ self.old.last + 1 }
        ensures literal { result ≡ pos (self.old.last + 1) }
        ensures clauses { self.new.clauses ≡ self.old.clauses }
    {
        self.last += 1;
        positive(self.last)
    }

    /// Puts the clauses by which `whole` is true where `left` or `right` is.
    fn put_either(
        &mut self,
        alloc: Global,
        whole: Lit,
        left: Lit,
        right: Lit,
    ) -> Result<(), NoMemory>
        ensures last { self.new.last ≡ self.old.last }
        ensures put { OnOk result (self.new.clauses.items ≡ self.old.clauses.items ++ either_clauses whole left right) }
    {
        self.push(alloc, &[whole, left.negated()])?;
        self.push(alloc, &[whole, right.negated()])?;
        self.push(alloc, &[whole.negated(), left, right])?;
        Ok(())
    }

    /// Puts the clauses by which `whole` is true where the connective of both sides is.
    fn put_table(
        &mut self,
        alloc: Global,
        connective: Connective,
        whole: Lit,
        left: Lit,
        right: Lit,
    ) -> Result<(), NoMemory>
        ensures last { self.new.last ≡ self.old.last }
        ensures put { OnOk result (self.new.clauses.items ≡ self.old.clauses.items ++ table (connective_of connective) whole left right) }
    {
        match connective {
            Connective::Conjunction => self.put_both(alloc, whole, left, right),
            Connective::Disjunction => self.put_either(alloc, whole, left, right),
            Connective::Implication => self.put_either(alloc, whole, left.negated(), right),
            Connective::Equivalence => self.put_alike(alloc, whole, left, right),
        }
    }

    /// Puts the clauses by which `whole` is true where `left` and `right` are.
    fn put_both(&mut self, alloc: Global, whole: Lit, left: Lit, right: Lit) -> Result<(), NoMemory>
        ensures last { self.new.last ≡ self.old.last }
        ensures put { OnOk result (self.new.clauses.items ≡ self.old.clauses.items ++ table Conjunction whole left right) }
    {
        self.push(alloc, &[whole.negated(), left])?;
        self.push(alloc, &[whole.negated(), right])?;
        self.push(alloc, &[whole, left.negated(), right.negated()])?;
        Ok(())
    }

    /// Puts the clauses by which `whole` is true where `left` and `right` are both true or both false.
    fn put_alike(
        &mut self,
        alloc: Global,
        whole: Lit,
        left: Lit,
        right: Lit,
    ) -> Result<(), NoMemory>
        ensures last { self.new.last ≡ self.old.last }
        ensures put { OnOk result (self.new.clauses.items ≡ self.old.clauses.items ++ table Equivalence whole left right) }
    {
        self.push(alloc, &[whole.negated(), left.negated(), right])?;
        self.push(alloc, &[whole.negated(), left, right.negated()])?;
        self.push(alloc, &[whole, left, right])?;
        self.push(alloc, &[whole, left.negated(), right.negated()])?;
        Ok(())
    }

    /// Puts the clauses of a formula, and gives the literal that is true where it holds.
    pub fn encode(&mut self, alloc: Global, formula: &Formula) -> Result<Lit, NoMemory>
        requires { HasRoom self.old.last (formula_of formula.now) }
        ensures { IfOk result (λ l. Encodes (formula_of formula.now) self.old.last self.old.clauses.items l self.new.last self.new.clauses.items) }
    {
        match formula {
            Formula::Constant(truth) => self.encode_constant(alloc, *truth),
            Formula::Variable(n) => Ok(positive(*n)),
            Formula::Negation(part) => {
                let literal = self.encode(alloc, part)?;
                Ok(literal.negated())
            }
            Formula::Joined(connective, left, right) => {
                let left = self.encode(alloc, left)?;
                let right = self.encode(alloc, right)?;
                let whole = self.take();
                self.put_table(alloc, *connective, whole, left, right)?;
                Ok(whole)
            }
        }
    }

    /// Puts the clause of a constant.
    fn encode_constant(&mut self, alloc: Global, truth: bool) -> Result<Lit, NoMemory>
        requires { HasRoom self.old.last (Constant truth) }
        ensures { IfOk result (λ l. Encodes (Constant truth) self.old.last self.old.clauses.items l self.new.last self.new.clauses.items) }
    {
        let literal = self.take();
        let held = if truth { literal } else { literal.negated() };
        self.push(alloc, &[held])?;
        Ok(literal)
    }
}
