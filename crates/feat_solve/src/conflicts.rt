//! What the search makes of a conflict.

ghost use Rattle.std.specs.Prelude.{◌≡◌, ◌+◌, ◌≤◌, ◌++◌, ◌∷◌, [], Bool, List, false, neg_ℤ, Some, length, IfOk, IfSome, OnOk};
ghost use Rattle.spec_refutation.specs.Derivation.{has};
ghost use Rattle.feat_solve.specs.Trail.{literals, Conflicts};
ghost use Rattle.feat_solve.specs.Learnt.{learnt, settled};
ghost use Rattle.feat_solve.specs.Turns.{Keeps, IsReady, TurnIs, known, HasFewLines};

use crate::guide::Guide;
use crate::learning::{learn, learn_kept, mark_clause, settle};
use crate::search::{End, Search};
use crate::watched::{Pair, first_two};
use feat_proof::{Known, Lit, NoMemory, Step};
use std::alloc::Global;

/// The literals that a learnt clause watches: the one that is turned round, and the one whose level is the
/// last that is left.
fn watched_pair(decision: Lit, last: Option<Lit>) -> Option<Pair> {
    let other = last?;
    Some(Pair {
        first: decision.negated(),
        second: other.negated(),
    })
}

impl<'a> Search<'a> {
    /// Learns from a conflict, and turns the last decision round on which it depends.
    pub fn learn_and_turn(&mut self, alloc: Global, number: u64) -> Result<Option<End>, NoMemory>
        requires ready { IsReady self.old }
        requires conflict { Conflicts (known self.old) self.old.trail number }
        ensures keeps { Keeps self.old self.new }
        ensures turn { IfOk result (λ end. TurnIs self.old self.new end) }
    {
        let shorter = self.shorten(alloc, number)?;
        self.turn_round(alloc, shorter)
    }

    /// Adds the step by which the conflict can be told shortest, where forced literals tell it shorter than
    /// decisions. The trail falsifies its clause too, and the answer is its number.
    fn shorten(&mut self, alloc: Global, number: u64) -> Result<u64, NoMemory>
        requires ready { IsReady self.old }
        requires conflict { Conflicts (known self.old) self.old.trail number }
        ensures keeps { Keeps self.old self.new }
        ensures trail { self.new.trail ≡ self.old.trail }
        ensures ready { OnOk result (IsReady self.new) }
        ensures conflict { IfOk result (λ n. Conflicts (known self.new) self.new.trail n) }
    {
        match self.shorter_step(alloc, number)? {
            Some(step) => self.add(step),
            None => Ok(number),
        }
    }

    /// The step by which the conflict can be told shortest, where forced literals tell it shorter than decisions.
    fn shorter_step(&mut self, alloc: Global, number: u64) -> Result<Option<Step>, NoMemory>
        ensures keeps { Keeps self.old self.new }
        ensures steps { self.new.steps ≡ self.old.steps }
        ensures trail { self.new.trail ≡ self.old.trail }
        ensures taught { IfOk result (λ step. IfSome step (λ s. (cuts : List Bool) × (s ≡ learnt (known self.old) cuts self.old.trail number))) }
    {
        let mut guide = Guide::new(alloc, self.trail.entries(), self.trail.levels())?;
        let step = learn_kept(
            alloc,
            self.trail.entries(),
            &Known::new(self.clauses, &self.steps),
            number,
            &mut self.marks,
            &mut guide,
        )?;
        if guide.has_cut() {
            return Ok(Some(step));
        }
        Ok(None)
    }

    /// Adds a step whose clause the trail falsifies, to be looked at next, and gives the number of its clause.
    fn add(&mut self, step: Step) -> Result<u64, NoMemory>
        requires { HasFewLines self.old }
        ensures keeps { Keeps self.old self.new }
        ensures trail { self.new.trail ≡ self.old.trail }
        ensures few { HasFewLines self.new }
        ensures added { OnOk result (self.new.steps.items ≡ self.old.steps.items ++ step ∷ []) }
        ensures number { IfOk result (λ n. n ≡ length self.new.clauses.now + length self.new.steps.items) }
    {
        self.watches.add(first_two(step.literals()))?;
        self.steps.push(step)?;
        let number = self.last_number();
        self.watches.ask(number);
        Ok(number)
    }

    /// The number of the last clause that is known.
    fn last_number(&self) -> u64
        requires { HasFewLines self.now }
        ensures { result ≡ length self.now.clauses.now + length self.now.steps.items }
    {
        (self.clauses.len() + self.steps.len()) as u64
    }

    /// Adds the step of a conflict, and turns the last decision round on which it depends.
    fn turn_round(&mut self, alloc: Global, number: u64) -> Result<Option<End>, NoMemory>
        requires ready { IsReady self.old }
        requires conflict { Conflicts (known self.old) self.old.trail number }
        ensures keeps { Keeps self.old self.new }
        ensures turn { IfOk result (λ end. TurnIs self.old self.new end) }
    {
        self.learn_step(alloc, number)?;
        settle(&mut self.trail, &self.marks);
        let Some(decision) = self.trail.take_back() else {
            return Ok(Some(End::Closed));
        };
        self.turn(decision)?;
        Ok(None)
    }

    /// Adds the step that tells a conflict by decisions alone, and marks the literals of its clause.
    fn learn_step(&mut self, alloc: Global, number: u64) -> Result<(), NoMemory>
        requires { HasFewLines self.old }
        ensures keeps { Keeps self.old self.new }
        ensures trail { self.new.trail ≡ self.old.trail }
        ensures few { HasFewLines self.new }
        ensures added { OnOk result (self.new.steps.items ≡ self.old.steps.items ++ learnt (known self.old) [] self.old.trail number ∷ []) }
        ensures marked { OnOk result (self.new.marks ≡ (learnt (known self.old) [] self.old.trail number).0) }
    {
        let step = learn(
            alloc,
            self.trail.entries(),
            &Known::new(self.clauses, &self.steps),
            number,
            &mut self.marks,
        )?;
        mark_clause(step.literals(), &mut self.marks)?;
        self.steps.push(step)?;
        Ok(())
    }

    /// Forces the negation of a decision that was taken back by the clause of the last step, whose literals are marked, at the
    /// lowest level at which it does.
    fn turn(&mut self, decision: Lit) -> Result<(), NoMemory>
        requires few { HasFewLines self.old }
        requires free { has (literals (settled self.old.marks self.old.trail self.old.trail)) (neg_ℤ decision) ≡ false }
        ensures keeps { Keeps self.old self.new }
        ensures steps { self.new.steps ≡ self.old.steps }
        ensures trail { OnOk result (self.new.trail ≡ (neg_ℤ decision, Some (length self.old.clauses.now + length self.old.steps.items)) ∷ settled self.old.marks self.old.trail self.old.trail) }
    {
        settle(&mut self.trail, &self.marks);
        self.watches.go_back(self.trail.len());
        self.watches
            .add(watched_pair(decision, self.trail.last_decision()))?;
        let number = self.last_number();
        self.trail.force(decision.negated(), number)?;
        Ok(())
    }
}
