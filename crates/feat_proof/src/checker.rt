//! The checker.

ghost use Rattle.std.specs.Prelude.{◌≡◌, ◌≢◌, ◌+◌, ◌<◌, ◌≤◌, ◌↔◌, ℕ, Bool, true, false, [], length, IfOk, SomeIndex};
ghost use Rattle.std.specs.Bool.{OnTrue, OnFalse};
ghost use Rattle.spec_refutation.specs.Literals.{satisfies};
ghost use Rattle.spec_refutation.specs.Refutation.{step_at, follows as follows_at, EachFollows, Refutes, Fails};

use crate::clauses::Clause;
use crate::derivation::follows;
use crate::faults::NoMemory;
use crate::formula::Cnf;
use crate::known::Known;
use crate::logs::Log;
use crate::steps::Step;
use crate::verdicts::Verdict;
use std::alloc::Global;

/// The number of the first step that does not follow, counted from 0, or the number of steps.
fn first_that_fails(alloc: Global, clauses: &[Clause], steps: &[Step]) -> Result<usize, NoMemory>
    ensures within { IfOk result (λ n. n ≤ length steps.now) }
    ensures before { IfOk result (λ n. EachFollows clauses.now steps.now n) }
    ensures here { IfOk result (λ n.
        n < length steps.now → follows_at clauses.now steps.now n ≡ false) }
{
    for (number, step) in steps.iter().enumerate() {
        let known = Known::new(clauses, &steps[..number]);
        if !follows(alloc, &known, step)? {
            return Ok(number);
        }
    }
    Ok(steps.len())
}

/// Whether some step's clause is empty.
fn has_empty(steps: &[Step]) -> bool
    ensures some { OnTrue result (SomeIndex steps.now (λ i. (step_at steps.now i).0 ≡ [])) }
    ensures none { OnFalse result ((i : ℕ) → i < length steps.now → (step_at steps.now i).0 ≢ []) }
{
    for step in steps {
        if step.literals().is_empty() {
            return true;
        }
    }
    false
}

/// Whether the log refutes the clauses. A step may hint at the clauses, numbered from 1, and at the
/// steps before it, which go on from there. Numbers of clauses count from 1, `Fails` counts steps
/// from 0.
///
/// A hint costs a look at the literals of its clause, each of them one look-up in an ordered set. The
/// set has at most as many members as the step has literals and hints, and is let go with the step.
pub fn check(alloc: Global, cnf: &Cnf, log: &Log) -> Result<Verdict, NoMemory>
    requires { length cnf.now.1 + length log.now ≤ 18446744073709551615 }

    ensures refuted { IfOk result (λ v. (v ≡ Verdict.Refuted) ↔ Refutes cnf.now.1 log.now) }
    ensures fails { IfOk result (λ v. (n : ℕ) → (v ≡ Verdict.Fails n) ↔ Fails cnf.now.1 log.now n) }

    // Where the log refutes the clauses, no assignment satisfies them.
    ensures sound { IfOk result (λ v.
        v ≡ Verdict.Refuted → (a : ℕ → Bool) → satisfies a cnf.now.1 ≢ true) }
{
    let steps = log.steps();
    let first = first_that_fails(alloc, cnf.clauses(), steps)?;
    if first == steps.len() && has_empty(steps) {
        return Ok(Verdict::Refuted);
    }
    Ok(Verdict::Fails { step: first as u64 })
}
