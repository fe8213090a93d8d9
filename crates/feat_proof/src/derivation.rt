//! Whether a step follows by its hints.

ghost use Rattle.std.specs.Prelude.{◌≡◌, IfOk, map, neg_ℤ};
ghost use Rattle.spec_refutation.specs.Derivation.{derives, the_only, open_literals, falsified, leads};
ghost use Rattle.feat_proof.specs.Members.{SameMembers};

use crate::faults::NoMemory;
use crate::known::Known;
use crate::literal_set::LiteralSet;
use crate::literals::Lit;
use crate::steps::Step;
use std::alloc::Global;

/// The set of the negations of these literals.
fn negations(alloc: Global, clause: &[Lit]) -> Result<LiteralSet, NoMemory>
    ensures { IfOk result (λ set. SameMembers set (map neg_ℤ clause.now)) }
{
    let mut set = LiteralSet::new(alloc);
    for lit in clause {
        set.insert(lit.negated())?;
    }
    Ok(set)
}

/// The literal of the clause whose negation is not in the set, if there is exactly one; equal ones
/// count once.
fn only_open(set: &LiteralSet, clause: &[Lit]) -> Option<Lit>
    ensures { result ≡ the_only (open_literals set.now clause.now) }
{
    let mut open: Option<Lit> = None;
    for lit in clause {
        if !set.contains(lit.negated()) {
            match open {
                None => open = Some(*lit),
                Some(first) => {
                    if first != *lit {
                        return None;
                    }
                }
            }
        }
    }
    open
}

/// Whether the set has the negation of each literal of the clause.
fn is_falsified(set: &LiteralSet, clause: &[Lit]) -> bool
    ensures { result ≡ falsified set.now clause.now }
{
    clause.iter().all(|lit| set.contains(lit.negated()))
}

/// Whether the step follows from the clauses before it.
pub fn follows(alloc: Global, known: &Known<'_>, step: &Step) -> Result<bool, NoMemory>
    ensures { IfOk result (λ yes. yes ≡ derives known.now step.now) }
{
    let mut set = negations(alloc, step.literals())?;
    let hints = step.hints();
    for (place, hint) in hints.iter().enumerate() {
        let Some(clause) = known.clause(*hint) else {
            return Ok(false);
        };
        if place + 1 == hints.len() {
            return Ok(is_falsified(&set, clause));
        }
        let Some(lit) = only_open(&set, clause) else {
            return Ok(false);
        };
        set.insert(lit)?;
    }
    Ok(false)
}
