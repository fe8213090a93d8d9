//! The search.

ghost use Rattle.std.specs.Prelude.{◌≡◌, ◌<◌, ◌≤◌, ◌++◌, ℕ, map, length, IfOk};
ghost use Rattle.std.specs.List.{AllByRecursion};
ghost use Rattle.spec_refutation.specs.Reading.{IsClause};
ghost use Rattle.feat_solve.specs.Trail.{literals};
ghost use Rattle.feat_solve.specs.Looks.{LookIs};
ghost use Rattle.feat_solve.specs.Turns.{HasClauses, Keeps, IsReady, TurnIs, EndIs, known};
ghost use Rattle.feat_solve.specs.Answers.{Solves};

use crate::answers::Answer;
use crate::looking::{Look, first_falsified};
use crate::marks::Marks;
use crate::states::states;
use crate::trail::Trail;
use crate::variables::positive;
use crate::watches::Watches;
use feat_proof::{Clause, Known, Lit, Log, NoMemory, Step};
use std::alloc::Global;

/// How the search ends.
#[derive(Drop)]
pub enum End {
    /// The trail is a model.
    Found,
    /// The log refutes the clauses.
    Closed,
}

/// A search over the variables of clauses: the steps that it has learnt, and the literals that are true. Beside them stands
/// what spares it a scan of all clauses and of all literals.
#[derive(Drop)]
pub struct Search<'a> {
    pub vars: u32,
    pub clauses: &'a [Clause],
    pub steps: Vec<Step>,
    pub trail: Trail,
    pub watches: Watches,
    pub marks: Marks,
}

impl<'a> Search<'a> {
    /// A search that begins.
    pub fn new(alloc: Global, vars: u32, clauses: &'a [Clause]) -> Result<Search<'a>, NoMemory>
        requires vars { vars ≤ 2147483647 }
        requires within { AllByRecursion (IsClause vars) clauses.now }
        requires few { length clauses.now < 2147483648 }
        ensures clauses { IfOk result (HasClauses vars clauses.now) }
        ensures ready { IfOk result IsReady }
    {
        let watches = Watches::new(alloc, vars, clauses)?;
        Ok(Search {
            vars,
            clauses,
            steps: Vec::new(alloc),
            trail: Trail::new(alloc),
            watches,
            marks: Marks::new(alloc),
        })
    }

    /// Goes on to the end.
    pub fn run(&mut self, alloc: Global) -> Result<End, NoMemory>
        requires { IsReady self.old }
        ensures keeps { Keeps self.old self.new }
        ensures end { IfOk result (λ end. EndIs self.new end) }
    {
        'turns: loop {
            if let Some(end) = self.take_turn(alloc)? {
                return Ok(end);
            }
        }
    }

    /// One more literal, or one more step; or the end.
    fn take_turn(&mut self, alloc: Global) -> Result<Option<End>, NoMemory>
        requires { IsReady self.old }
        ensures keeps { Keeps self.old self.new }
        ensures turn { IfOk result (λ end. TurnIs self.old self.new end) }
    {
        match self.look(alloc)? {
            Look::Conflict(number) => self.learn_and_turn(alloc, number),
            Look::Forced(literal, number) => self.force(literal, number),
            Look::Quiet => self.decide(alloc),
        }
    }

    /// Goes on looking at clauses.
    fn look(&mut self, alloc: Global) -> Result<Look, NoMemory>
        ensures keeps { Keeps self.old self.new }
        ensures steps { self.new.steps ≡ self.old.steps }
        ensures trail { self.new.trail ≡ self.old.trail }
        ensures look { IfOk result (λ look. LookIs (known self.old) (literals self.old.trail) look) }
    {
        self.watches
            .look(alloc, &Known::new(self.clauses, &self.steps), &self.trail)
    }

    /// Adds a literal that the clause of this number forces.
    fn force(&mut self, literal: Lit, number: u64) -> Result<Option<End>, NoMemory>
        requires ready { IsReady self.old }
        requires forced { LookIs (known self.old) (literals self.old.trail) (Look.Forced literal number) }
        ensures keeps { Keeps self.old self.new }
        ensures turn { IfOk result (λ end. TurnIs self.old self.new end) }
    {
        self.trail.force(literal, number)?;
        Ok(None)
    }

    /// Decides the least variable without a value. Where each has one, all clauses are looked at.
    fn decide(&mut self, alloc: Global) -> Result<Option<End>, NoMemory>
        requires { IsReady self.old }
        ensures keeps { Keeps self.old self.new }
        ensures turn { IfOk result (λ end. TurnIs self.old self.new end) }
    {
        if let Some(variable) = self.trail.free_variable(self.vars) {
            self.trail.decide(positive(variable))?;
            return Ok(None);
        }
        match first_falsified(self.clauses, &self.trail) {
            Some(number) => self.learn_and_turn(alloc, number),
            None => Ok(Some(End::Found)),
        }
    }

    /// The answer of a search that found a model.
    pub fn model(&self, alloc: Global) -> Result<Answer, NoMemory>
        requires { EndIs self.now End.Found }
        ensures { IfOk result (λ answer. Solves self.now.vars self.now.clauses.now answer) }
    {
        let states = states(alloc, &self.trail, self.vars)?;
        Ok(Answer::Model(states))
    }

    /// The answer of a search whose log refutes the clauses.
    pub fn refutation(self) -> Answer
        requires { EndIs self End.Closed }
        ensures { Solves self.entry.vars self.entry.clauses.now result }
    {
        let Search { steps, .. } = self;
        Answer::Refuted(Log::from_vec(steps))
    }
}
